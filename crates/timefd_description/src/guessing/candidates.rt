//! Descriptions that dates and times are often written by, likeliest first. `tables/write` writes them.

ghost use Rattle.std.specs.Prelude.{◌≡◌};
ghost use Rattle.timefd_description.specs.Guessing.Candidates as spec;

use crate::guessing::candidate::{Candidate, candidate};

/// Where descriptions come from.
#[derive(Clone, Copy)]
pub enum Group {
    /// RFC 3339.
    Rfc3339,
    /// ISO 8601.
    Iso8601,
    /// Dates and times with a space between, as databases and logs have them.
    Spaced,
    /// ISO 8601 without hyphens, by weeks and by days.
    Compact,
    /// RFC 2822 and HTTP.
    Mail,
    /// What ctime, date, git and JavaScript write.
    Programs,
    /// Logs of servers.
    Servers,
    /// Names of months.
    Named,
    /// Local orders of day and month.
    Local,
    /// Unix time.
    Unix,
    /// Times of day.
    Times,
}

/// The groups, likeliest first.
pub fn all_groups() -> &'static [Group]
    ensures { result.now ≡ spec.all_groups }
{
    &[
        Group::Rfc3339,
        Group::Iso8601,
        Group::Spaced,
        Group::Compact,
        Group::Mail,
        Group::Programs,
        Group::Servers,
        Group::Named,
        Group::Local,
        Group::Unix,
        Group::Times,
    ]
}

impl Group {
    /// The descriptions of the group, likeliest first.
    pub fn rows(self) -> &'static [Candidate]
        ensures { spec.entries result.now ≡ spec.rows_of self }
    {
        match self {
            Group::Rfc3339 => rfc_3339_rows(),
            Group::Iso8601 => iso_8601_rows(),
            Group::Spaced => spaced_rows(),
            Group::Compact => compact_rows(),
            Group::Mail => mail_rows(),
            Group::Programs => programs_rows(),
            Group::Servers => servers_rows(),
            Group::Named => named_rows(),
            Group::Local => local_rows(),
            Group::Unix => unix_rows(),
            Group::Times => times_rows(),
        }
    }
}

#[tactic(auto, unfolding(crate::specs::Guessing::Candidates::rfc_3339_entries))]
fn rfc_3339_rows() -> &'static [Candidate]
    ensures { spec.entries result.now ≡ spec.rfc_3339_entries }
{
    RFC_3339
}

#[tactic(auto, unfolding(crate::specs::Guessing::Candidates::iso_8601_entries))]
fn iso_8601_rows() -> &'static [Candidate]
    ensures { spec.entries result.now ≡ spec.iso_8601_entries }
{
    ISO_8601
}

#[tactic(auto, unfolding(crate::specs::Guessing::Candidates::spaced_entries))]
fn spaced_rows() -> &'static [Candidate]
    ensures { spec.entries result.now ≡ spec.spaced_entries }
{
    SPACED
}

#[tactic(auto, unfolding(crate::specs::Guessing::Candidates::compact_entries))]
fn compact_rows() -> &'static [Candidate]
    ensures { spec.entries result.now ≡ spec.compact_entries }
{
    COMPACT
}

#[tactic(auto, unfolding(crate::specs::Guessing::Candidates::mail_entries))]
fn mail_rows() -> &'static [Candidate]
    ensures { spec.entries result.now ≡ spec.mail_entries }
{
    MAIL
}

#[tactic(auto, unfolding(crate::specs::Guessing::Candidates::programs_entries))]
fn programs_rows() -> &'static [Candidate]
    ensures { spec.entries result.now ≡ spec.programs_entries }
{
    PROGRAMS
}

#[tactic(auto, unfolding(crate::specs::Guessing::Candidates::servers_entries))]
fn servers_rows() -> &'static [Candidate]
    ensures { spec.entries result.now ≡ spec.servers_entries }
{
    SERVERS
}

#[tactic(auto, unfolding(crate::specs::Guessing::Candidates::named_entries))]
fn named_rows() -> &'static [Candidate]
    ensures { spec.entries result.now ≡ spec.named_entries }
{
    NAMED
}

#[tactic(auto, unfolding(crate::specs::Guessing::Candidates::local_entries))]
fn local_rows() -> &'static [Candidate]
    ensures { spec.entries result.now ≡ spec.local_entries }
{
    LOCAL
}

#[tactic(auto, unfolding(crate::specs::Guessing::Candidates::unix_entries))]
fn unix_rows() -> &'static [Candidate]
    ensures { spec.entries result.now ≡ spec.unix_entries }
{
    UNIX
}

#[tactic(auto, unfolding(crate::specs::Guessing::Candidates::times_entries))]
fn times_rows() -> &'static [Candidate]
    ensures { spec.entries result.now ≡ spec.times_entries }
{
    TIMES
}

const RFC_3339: &[Candidate] = &[
    candidate!("[year]-[month]-[day]T[hour]:[minute]:[second]Z"),
    candidate!("[year]-[month]-[day]T[hour]:[minute]:[second].[subsecond digits:3]Z"),
    candidate!("[year]-[month]-[day]T[hour]:[minute]:[second].[subsecond digits:6]Z"),
    candidate!("[year]-[month]-[day]T[hour]:[minute]:[second].[subsecond digits:9]Z"),
    candidate!("[year]-[month]-[day]T[hour]:[minute]:[second].[subsecond]Z"),
    candidate!(
        "\
        [year]-[month]-[day]T[hour]:[minute]:[second][offset_hour \
        sign:mandatory]:[offset_minute]"
    ),
    candidate!(
        "\
        [year]-[month]-[day]T[hour]:[minute]:[second].[subsecond digits:3][offset_hour \
        sign:mandatory]:[offset_minute]"
    ),
    candidate!(
        "\
        [year]-[month]-[day]T[hour]:[minute]:[second].[subsecond digits:6][offset_hour \
        sign:mandatory]:[offset_minute]"
    ),
    candidate!(
        "\
        [year]-[month]-[day]T[hour]:[minute]:[second].[subsecond digits:9][offset_hour \
        sign:mandatory]:[offset_minute]"
    ),
    candidate!(
        "\
        [year]-[month]-[day]T[hour]:[minute]:[second].[subsecond][offset_hour \
        sign:mandatory]:[offset_minute]"
    ),
];

const ISO_8601: &[Candidate] = &[
    candidate!("[year]-[month]-[day]"),
    candidate!("[year]-[month]-[day]T[hour]:[minute]:[second]"),
    candidate!("[year]-[month]-[day]T[hour]:[minute]:[second].[subsecond digits:3]"),
    candidate!("[year]-[month]-[day]T[hour]:[minute]:[second].[subsecond digits:6]"),
    candidate!("[year]-[month]-[day]T[hour]:[minute]:[second].[subsecond digits:9]"),
    candidate!("[year]-[month]-[day]T[hour]:[minute]:[second].[subsecond]"),
    candidate!("[year]-[month]-[day]T[hour]:[minute]"),
    candidate!("[year]-[month]-[day]T[hour]:[minute]Z"),
    candidate!("[year]-[month]-[day]T[hour]:[minute][offset_hour sign:mandatory]:[offset_minute]"),
    candidate!(
        "[year]-[month]-[day]T[hour]:[minute]:[second][offset_hour sign:mandatory][offset_minute]"
    ),
    candidate!(
        "\
        [year]-[month]-[day]T[hour]:[minute]:[second].[subsecond digits:3][offset_hour \
        sign:mandatory][offset_minute]"
    ),
    candidate!(
        "\
        [year]-[month]-[day]T[hour]:[minute]:[second].[subsecond digits:6][offset_hour \
        sign:mandatory][offset_minute]"
    ),
    candidate!(
        "\
        [year]-[month]-[day]T[hour]:[minute]:[second].[subsecond digits:9][offset_hour \
        sign:mandatory][offset_minute]"
    ),
    candidate!(
        "\
        [year]-[month]-[day]T[hour]:[minute]:[second].[subsecond][offset_hour \
        sign:mandatory][offset_minute]"
    ),
];

const SPACED: &[Candidate] = &[
    candidate!("[year]-[month]-[day] [hour]:[minute]:[second]"),
    candidate!("[year]-[month]-[day] [hour]:[minute]:[second].[subsecond digits:3]"),
    candidate!("[year]-[month]-[day] [hour]:[minute]:[second].[subsecond digits:6]"),
    candidate!("[year]-[month]-[day] [hour]:[minute]:[second].[subsecond digits:9]"),
    candidate!("[year]-[month]-[day] [hour]:[minute]:[second].[subsecond]"),
    candidate!("[year]-[month]-[day] [hour]:[minute]"),
    candidate!(
        "\
        [year]-[month]-[day] [hour]:[minute]:[second][offset_hour \
        sign:mandatory]:[offset_minute]"
    ),
    candidate!(
        "\
        [year]-[month]-[day] [hour]:[minute]:[second].[subsecond digits:3][offset_hour \
        sign:mandatory]:[offset_minute]"
    ),
    candidate!(
        "\
        [year]-[month]-[day] [hour]:[minute]:[second].[subsecond digits:6][offset_hour \
        sign:mandatory]:[offset_minute]"
    ),
    candidate!(
        "\
        [year]-[month]-[day] [hour]:[minute]:[second].[subsecond digits:9][offset_hour \
        sign:mandatory]:[offset_minute]"
    ),
    candidate!(
        "\
        [year]-[month]-[day] [hour]:[minute]:[second].[subsecond][offset_hour \
        sign:mandatory]:[offset_minute]"
    ),
    candidate!("[year]-[month]-[day] [hour]:[minute]:[second],[subsecond digits:3]"),
    candidate!("[year]-[month]-[day] [hour]:[minute]:[second]Z"),
    candidate!("[year]-[month]-[day] [hour]:[minute]:[second].[subsecond digits:3]Z"),
    candidate!("[year]-[month]-[day] [hour]:[minute]:[second].[subsecond digits:6]Z"),
    candidate!("[year]-[month]-[day] [hour]:[minute]:[second] UTC"),
    candidate!("[year]-[month]-[day] [hour]:[minute]:[second].[subsecond digits:3] UTC"),
    candidate!("[year]-[month]-[day] [hour]:[minute]:[second].[subsecond digits:6] UTC"),
    candidate!("[year]-[month]-[day] [hour]:[minute]:[second].[subsecond digits:9] UTC"),
    candidate!("[year]-[month]-[day] [hour]:[minute]:[second].[subsecond] UTC"),
    candidate!(
        "\
        [year]-[month]-[day] [hour]:[minute]:[second] [offset_hour \
        sign:mandatory][offset_minute]"
    ),
    candidate!(
        "\
        [year]-[month]-[day] [hour]:[minute]:[second].[subsecond digits:3] [offset_hour \
        sign:mandatory][offset_minute]"
    ),
    candidate!(
        "\
        [year]-[month]-[day] [hour]:[minute]:[second].[subsecond digits:6] [offset_hour \
        sign:mandatory][offset_minute]"
    ),
    candidate!(
        "\
        [year]-[month]-[day] [hour]:[minute]:[second].[subsecond digits:9] [offset_hour \
        sign:mandatory][offset_minute]"
    ),
    candidate!(
        "\
        [year]-[month]-[day] [hour]:[minute]:[second].[subsecond] [offset_hour \
        sign:mandatory][offset_minute]"
    ),
    candidate!("[year]-[month]-[day] [hour]:[minute]:[second][offset_hour sign:mandatory]"),
    candidate!(
        "\
        [year]-[month]-[day] [hour]:[minute]:[second].[subsecond digits:3][offset_hour \
        sign:mandatory]"
    ),
    candidate!(
        "\
        [year]-[month]-[day] [hour]:[minute]:[second].[subsecond digits:6][offset_hour \
        sign:mandatory]"
    ),
    candidate!(
        "\
        [year]-[month]-[day] [hour]:[minute]:[second].[subsecond digits:9][offset_hour \
        sign:mandatory]"
    ),
    candidate!(
        "[year]-[month]-[day] [hour]:[minute]:[second].[subsecond][offset_hour sign:mandatory]"
    ),
];

const COMPACT: &[Candidate] = &[
    candidate!("[year][month][day]"),
    candidate!("[year][month][day]T[hour][minute][second]Z"),
    candidate!("[year][month][day]T[hour][minute][second]"),
    candidate!(
        "[year][month][day]T[hour][minute][second][offset_hour sign:mandatory][offset_minute]"
    ),
    candidate!("[year][month][day][hour][minute][second]"),
    candidate!("[year][month][day]-[hour][minute][second]"),
    candidate!("[year][month][day]_[hour][minute][second]"),
    candidate!("[year base:iso_week]-W[week_number]-[weekday repr:monday]"),
    candidate!("[year]-[ordinal]"),
];

const MAIL: &[Candidate] = &[
    candidate!(
        "\
        [weekday repr:short], [day] [month repr:short] [year] [hour]:[minute]:[second] \
        [offset_hour sign:mandatory][offset_minute]"
    ),
    candidate!(
        "[weekday repr:short], [day] [month repr:short] [year] [hour]:[minute]:[second] GMT"
    ),
    candidate!(
        "\
        [weekday repr:short], [day padding:none] [month repr:short] [year] \
        [hour]:[minute]:[second] [offset_hour sign:mandatory][offset_minute]"
    ),
    candidate!(
        "\
        [weekday repr:short], [day padding:none] [month repr:short] [year] \
        [hour]:[minute]:[second] GMT"
    ),
    candidate!(
        "\
        [day] [month repr:short] [year] [hour]:[minute]:[second] [offset_hour \
        sign:mandatory][offset_minute]"
    ),
    candidate!("[day] [month repr:short] [year] [hour]:[minute]:[second] GMT"),
    candidate!(
        "\
        [day padding:none] [month repr:short] [year] [hour]:[minute]:[second] [offset_hour \
        sign:mandatory][offset_minute]"
    ),
    candidate!("[day padding:none] [month repr:short] [year] [hour]:[minute]:[second] GMT"),
];

const PROGRAMS: &[Candidate] = &[
    candidate!(
        "\
        [weekday repr:short] [month repr:short] [day padding:space] [hour]:[minute]:[second] \
        [year]"
    ),
    candidate!(
        "\
        [weekday repr:short] [month repr:short] [day padding:space] [hour]:[minute]:[second] \
        UTC [year]"
    ),
    candidate!(
        "\
        [weekday repr:short] [month repr:short] [day padding:none] [hour]:[minute]:[second] \
        [year]"
    ),
    candidate!(
        "\
        [weekday repr:short] [month repr:short] [day padding:none] [hour]:[minute]:[second] \
        [year] [offset_hour sign:mandatory][offset_minute]"
    ),
    candidate!("[weekday repr:short] [month repr:short] [day] [year]"),
    candidate!("[weekday repr:short] [month repr:short] [day] [year] [hour]:[minute]:[second]"),
    candidate!(
        "\
        [weekday repr:short] [month repr:short] [day] [year] [hour]:[minute]:[second] \
        GMT[offset_hour sign:mandatory][offset_minute]"
    ),
];

const SERVERS: &[Candidate] = &[
    candidate!(
        "\
        [day]/[month repr:short]/[year]:[hour]:[minute]:[second] [offset_hour \
        sign:mandatory][offset_minute]"
    ),
    candidate!("[day]/[month repr:short]/[year]:[hour]:[minute]:[second]"),
    candidate!("[year]/[month]/[day]"),
    candidate!("[year]/[month]/[day] [hour]:[minute]:[second]"),
    candidate!("[year]/[month]/[day] [hour]:[minute]:[second].[subsecond digits:3]"),
    candidate!("[year]/[month]/[day] [hour]:[minute]:[second].[subsecond digits:6]"),
    candidate!("[year]/[month]/[day] [hour]:[minute]:[second].[subsecond digits:9]"),
    candidate!("[year]/[month]/[day] [hour]:[minute]:[second].[subsecond]"),
    candidate!("[year]/[month]/[day] [hour]:[minute]"),
];

const NAMED: &[Candidate] = &[
    candidate!("[day padding:none] [month repr:long] [year]"),
    candidate!("[day padding:none] [month repr:short] [year]"),
    candidate!("[month repr:long] [day padding:none], [year]"),
    candidate!("[month repr:short] [day padding:none], [year]"),
    candidate!("[weekday], [day padding:none] [month repr:long] [year]"),
    candidate!("[weekday], [month repr:long] [day padding:none], [year]"),
    candidate!("[weekday repr:short], [day padding:none] [month repr:short] [year]"),
    candidate!("[weekday repr:short], [month repr:short] [day padding:none], [year]"),
    candidate!("[day] [month repr:long] [year]"),
    candidate!("[day] [month repr:short] [year]"),
    candidate!("[month repr:long] [day], [year]"),
    candidate!("[month repr:short] [day], [year]"),
    candidate!("[weekday], [day] [month repr:long] [year]"),
    candidate!("[weekday], [month repr:long] [day], [year]"),
    candidate!("[weekday repr:short], [day] [month repr:short] [year]"),
    candidate!("[weekday repr:short], [month repr:short] [day], [year]"),
    candidate!("[day]-[month repr:short]-[year]"),
    candidate!("[day]-[month repr:short]-[year] [hour]:[minute]:[second]"),
    candidate!("[day padding:none] [month repr:short] [year] [hour]:[minute]"),
    candidate!("[day padding:none] [month repr:short] [year] [hour]:[minute]:[second]"),
    candidate!("[day padding:none] [month repr:long] [year] [hour]:[minute]"),
    candidate!(
        "\
        [month repr:short] [day padding:none], [year] [hour repr:12 \
        padding:none]:[minute]:[second] [period]"
    ),
    candidate!(
        "\
        [month repr:short] [day padding:none], [year], [hour repr:12 \
        padding:none]:[minute]:[second] [period]"
    ),
    candidate!(
        "\
        [month repr:long] [day padding:none], [year] at [hour repr:12 padding:none]:[minute] \
        [period]"
    ),
];

const LOCAL: &[Candidate] = &[
    candidate!("[day].[month].[year]"),
    candidate!("[day padding:none].[month padding:none].[year]"),
    candidate!("[day].[month].[year] [hour]:[minute]"),
    candidate!("[day padding:none].[month padding:none].[year] [hour]:[minute]"),
    candidate!("[day].[month].[year] [hour]:[minute]:[second]"),
    candidate!("[day padding:none].[month padding:none].[year] [hour]:[minute]:[second]"),
    candidate!("[day].[month].[year], [hour]:[minute]:[second]"),
    candidate!("[day padding:none].[month padding:none].[year], [hour]:[minute]:[second]"),
    candidate!("[day]/[month]/[year]", swapped "[month]/[day]/[year]"),
    candidate!("[month]/[day]/[year]", swapped "[day]/[month]/[year]"),
    candidate!(
        "[day padding:none]/[month padding:none]/[year]",
        swapped "[month padding:none]/[day padding:none]/[year]"
    ),
    candidate!(
        "[month padding:none]/[day padding:none]/[year]",
        swapped "[day padding:none]/[month padding:none]/[year]"
    ),
    candidate!(
        "[day]/[month]/[year] [hour]:[minute]",
        swapped "[month]/[day]/[year] [hour]:[minute]"
    ),
    candidate!(
        "[month]/[day]/[year] [hour]:[minute]",
        swapped "[day]/[month]/[year] [hour]:[minute]"
    ),
    candidate!(
        "[day padding:none]/[month padding:none]/[year] [hour]:[minute]",
        swapped "[month padding:none]/[day padding:none]/[year] [hour]:[minute]"
    ),
    candidate!(
        "[month padding:none]/[day padding:none]/[year] [hour]:[minute]",
        swapped "[day padding:none]/[month padding:none]/[year] [hour]:[minute]"
    ),
    candidate!(
        "[day]/[month]/[year] [hour]:[minute]:[second]",
        swapped "[month]/[day]/[year] [hour]:[minute]:[second]"
    ),
    candidate!(
        "[month]/[day]/[year] [hour]:[minute]:[second]",
        swapped "[day]/[month]/[year] [hour]:[minute]:[second]"
    ),
    candidate!(
        "[day padding:none]/[month padding:none]/[year] [hour]:[minute]:[second]",
        swapped "[month padding:none]/[day padding:none]/[year] [hour]:[minute]:[second]"
    ),
    candidate!(
        "[month padding:none]/[day padding:none]/[year] [hour]:[minute]:[second]",
        swapped "[day padding:none]/[month padding:none]/[year] [hour]:[minute]:[second]"
    ),
    candidate!(
        "[day]/[month]/[year], [hour]:[minute]:[second]",
        swapped "[month]/[day]/[year], [hour]:[minute]:[second]"
    ),
    candidate!(
        "[month]/[day]/[year], [hour]:[minute]:[second]",
        swapped "[day]/[month]/[year], [hour]:[minute]:[second]"
    ),
    candidate!(
        "[day padding:none]/[month padding:none]/[year], [hour]:[minute]:[second]",
        swapped "[month padding:none]/[day padding:none]/[year], [hour]:[minute]:[second]"
    ),
    candidate!(
        "[month padding:none]/[day padding:none]/[year], [hour]:[minute]:[second]",
        swapped "[day padding:none]/[month padding:none]/[year], [hour]:[minute]:[second]"
    ),
    candidate!(
        "[day]/[month]/[year] [hour repr:12]:[minute] [period]",
        swapped "[month]/[day]/[year] [hour repr:12]:[minute] [period]"
    ),
    candidate!(
        "[month]/[day]/[year] [hour repr:12]:[minute] [period]",
        swapped "[day]/[month]/[year] [hour repr:12]:[minute] [period]"
    ),
    candidate!(
        "[day padding:none]/[month padding:none]/[year] [hour repr:12 padding:none]:[minute] [period]",
        swapped "[month padding:none]/[day padding:none]/[year] [hour repr:12 padding:none]:[minute] [period]"
    ),
    candidate!(
        "[month padding:none]/[day padding:none]/[year] [hour repr:12 padding:none]:[minute] [period]",
        swapped "[day padding:none]/[month padding:none]/[year] [hour repr:12 padding:none]:[minute] [period]"
    ),
    candidate!(
        "[day]/[month]/[year] [hour repr:12]:[minute]:[second] [period]",
        swapped "[month]/[day]/[year] [hour repr:12]:[minute]:[second] [period]"
    ),
    candidate!(
        "[month]/[day]/[year] [hour repr:12]:[minute]:[second] [period]",
        swapped "[day]/[month]/[year] [hour repr:12]:[minute]:[second] [period]"
    ),
    candidate!(
        "[day padding:none]/[month padding:none]/[year] [hour repr:12 padding:none]:[minute]:[second] [period]",
        swapped "[month padding:none]/[day padding:none]/[year] [hour repr:12 padding:none]:[minute]:[second] [period]"
    ),
    candidate!(
        "[month padding:none]/[day padding:none]/[year] [hour repr:12 padding:none]:[minute]:[second] [period]",
        swapped "[day padding:none]/[month padding:none]/[year] [hour repr:12 padding:none]:[minute]:[second] [period]"
    ),
    candidate!(
        "[day]/[month]/[year], [hour repr:12]:[minute]:[second] [period]",
        swapped "[month]/[day]/[year], [hour repr:12]:[minute]:[second] [period]"
    ),
    candidate!(
        "[month]/[day]/[year], [hour repr:12]:[minute]:[second] [period]",
        swapped "[day]/[month]/[year], [hour repr:12]:[minute]:[second] [period]"
    ),
    candidate!(
        "[day padding:none]/[month padding:none]/[year], [hour repr:12 padding:none]:[minute]:[second] [period]",
        swapped "[month padding:none]/[day padding:none]/[year], [hour repr:12 padding:none]:[minute]:[second] [period]"
    ),
    candidate!(
        "[month padding:none]/[day padding:none]/[year], [hour repr:12 padding:none]:[minute]:[second] [period]",
        swapped "[day padding:none]/[month padding:none]/[year], [hour repr:12 padding:none]:[minute]:[second] [period]"
    ),
    candidate!("[day]-[month]-[year]", swapped "[month]-[day]-[year]"),
    candidate!("[month]-[day]-[year]", swapped "[day]-[month]-[year]"),
    candidate!(
        "[day padding:none]-[month padding:none]-[year]",
        swapped "[month padding:none]-[day padding:none]-[year]"
    ),
    candidate!(
        "[month padding:none]-[day padding:none]-[year]",
        swapped "[day padding:none]-[month padding:none]-[year]"
    ),
    candidate!(
        "[day]-[month]-[year] [hour]:[minute]",
        swapped "[month]-[day]-[year] [hour]:[minute]"
    ),
    candidate!(
        "[month]-[day]-[year] [hour]:[minute]",
        swapped "[day]-[month]-[year] [hour]:[minute]"
    ),
    candidate!(
        "[day padding:none]-[month padding:none]-[year] [hour]:[minute]",
        swapped "[month padding:none]-[day padding:none]-[year] [hour]:[minute]"
    ),
    candidate!(
        "[month padding:none]-[day padding:none]-[year] [hour]:[minute]",
        swapped "[day padding:none]-[month padding:none]-[year] [hour]:[minute]"
    ),
    candidate!(
        "[day]-[month]-[year] [hour]:[minute]:[second]",
        swapped "[month]-[day]-[year] [hour]:[minute]:[second]"
    ),
    candidate!(
        "[month]-[day]-[year] [hour]:[minute]:[second]",
        swapped "[day]-[month]-[year] [hour]:[minute]:[second]"
    ),
    candidate!(
        "[day padding:none]-[month padding:none]-[year] [hour]:[minute]:[second]",
        swapped "[month padding:none]-[day padding:none]-[year] [hour]:[minute]:[second]"
    ),
    candidate!(
        "[month padding:none]-[day padding:none]-[year] [hour]:[minute]:[second]",
        swapped "[day padding:none]-[month padding:none]-[year] [hour]:[minute]:[second]"
    ),
];

const UNIX: &[Candidate] = &[
    candidate!("[unix_timestamp]"),
    candidate!("[unix_timestamp precision:millisecond]"),
];

const TIMES: &[Candidate] = &[
    candidate!("[hour]:[minute]:[second]"),
    candidate!("[hour]:[minute]"),
    candidate!("[hour]:[minute]:[second].[subsecond digits:3]"),
    candidate!("[hour]:[minute]:[second].[subsecond digits:6]"),
    candidate!("[hour]:[minute]:[second].[subsecond digits:9]"),
    candidate!("[hour]:[minute]:[second].[subsecond]"),
    candidate!("[hour repr:12]:[minute] [period]"),
    candidate!("[hour repr:12]:[minute]:[second] [period]"),
    candidate!("[hour repr:12 padding:none]:[minute] [period]"),
    candidate!("[hour repr:12 padding:none]:[minute]:[second] [period]"),
];
