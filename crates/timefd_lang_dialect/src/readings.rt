//! What reads the texts that each dialect's rows write. `tables/write` writes this file.

ghost use Rattle.std.specs.Prelude.{◌≡◌};
ghost use Rattle.timefd_lang_dialect.specs.Readings as spec;
ghost use Rattle.timefd_lang_dialect.specs.Rows.{entries};

use crate::dialect::Dialect;
use crate::reason::Reason;
use crate::row::{NotBefore, Range, Row, Verdict, row};

impl Dialect {
    /// For reading: each text of the dialect's rows that another text reads, with that text.
    pub fn readings(self) -> &'static [Row]
        ensures { entries result.now ≡ spec.readings_of self }
    {
        match self {
            Dialect::Python => python_readings(),
            Dialect::C => c_readings(),
            Dialect::Gnu => gnu_readings(),
            Dialect::Chrono => chrono_readings(),
            Dialect::Jiff => jiff_readings(),
            Dialect::Ruby => ruby_readings(),
            Dialect::Java => java_readings(),
            Dialect::Go => go_readings(),
            Dialect::Moment => moment_readings(),
        }
    }
}

#[tactic(auto, unfolding(crate::specs::Readings::python_readings))]
fn python_readings() -> &'static [Row]
    ensures { entries result.now ≡ spec.python_readings }
{
    PYTHON
}

#[tactic(auto, unfolding(crate::specs::Readings::c_readings))]
fn c_readings() -> &'static [Row]
    ensures { entries result.now ≡ spec.c_readings }
{
    C
}

#[tactic(auto, unfolding(crate::specs::Readings::gnu_readings))]
fn gnu_readings() -> &'static [Row]
    ensures { entries result.now ≡ spec.gnu_readings }
{
    GNU
}

#[tactic(auto, unfolding(crate::specs::Readings::chrono_readings))]
fn chrono_readings() -> &'static [Row]
    ensures { entries result.now ≡ spec.chrono_readings }
{
    CHRONO
}

#[tactic(auto, unfolding(crate::specs::Readings::jiff_readings))]
fn jiff_readings() -> &'static [Row]
    ensures { entries result.now ≡ spec.jiff_readings }
{
    JIFF
}

#[tactic(auto, unfolding(crate::specs::Readings::ruby_readings))]
fn ruby_readings() -> &'static [Row]
    ensures { entries result.now ≡ spec.ruby_readings }
{
    RUBY
}

#[tactic(auto, unfolding(crate::specs::Readings::java_readings))]
fn java_readings() -> &'static [Row]
    ensures { entries result.now ≡ spec.java_readings }
{
    JAVA
}

#[tactic(auto, unfolding(crate::specs::Readings::go_readings))]
fn go_readings() -> &'static [Row]
    ensures { entries result.now ≡ spec.go_readings }
{
    GO
}

#[tactic(auto, unfolding(crate::specs::Readings::moment_readings))]
fn moment_readings() -> &'static [Row]
    ensures { entries result.now ≡ spec.moment_readings }
{
    MOMENT
}

const PYTHON: &[Row] = &[
    row!("[year repr:last_two]" refused TwoDigitYear),
    row!("[month]/[day]/[year repr:last_two]" refused TwoDigitYear),
    row!("[year repr:last_two base:iso_week]" refused TwoDigitYear),
    row!("[year repr:last_two padding:none]" refused TwoDigitYear),
    row!("[year repr:last_two base:iso_week padding:none]" refused TwoDigitYear),
    row!("[year repr:last_two padding:space]" refused TwoDigitYear),
    row!("[year repr:last_two base:iso_week padding:space]" refused TwoDigitYear),
    row!("[day]" => "[day padding:none]"),
    row!("[hour]" => "[hour padding:none]"),
    row!("[hour repr:12]" => "[hour repr:12 padding:none]"),
    row!("[ordinal]" => "[ordinal padding:none]"),
    row!("[month]" => "[month padding:none]"),
    row!("[minute]" => "[minute padding:none]"),
    row!("[second]" => "[second padding:none]"),
    row!("[weekday repr:short]" => "[weekday repr:short case_sensitive:false]"),
    row!("[weekday]" => "[weekday case_sensitive:false]"),
    row!("[month repr:short]" => "[month repr:short case_sensitive:false]"),
    row!("[month repr:long]" => "[month repr:long case_sensitive:false]"),
    row!("[period]" => "[period case_sensitive:false]"),
    row!("[subsecond digits:6]" => "[subsecond]"),
    row!("[offset_hour sign:mandatory][offset_minute]" => "\
        [first [[offset_hour sign:mandatory]:[offset_minute]:[offset_second]] [[offset_hour \
        sign:mandatory][offset_minute][offset_second]] [[offset_hour \
        sign:mandatory]:[offset_minute]] [[offset_hour sign:mandatory][offset_minute]]]"),
];

const C: &[Row] = &[
    row!("[year repr:last_two]" refused TwoDigitYear),
    row!("[year repr:last_two base:iso_week]" refused TwoDigitYear),
    row!("[month]/[day]/[year repr:last_two]" refused TwoDigitYear),
    row!("[year repr:last_two padding:none]" refused TwoDigitYear),
    row!("[year repr:last_two padding:space]" refused TwoDigitYear),
    row!("[year repr:last_two base:iso_week padding:none]" refused TwoDigitYear),
    row!("[year repr:last_two base:iso_week padding:space]" refused TwoDigitYear),
    row!("[day]" => "[day padding:none]"),
    row!("[hour]" => "[hour padding:none]"),
    row!("[hour repr:12]" => "[hour repr:12 padding:none]"),
    row!("[ordinal]" => "[ordinal padding:none]"),
    row!("[month]" => "[month padding:none]"),
    row!("[minute]" => "[minute padding:none]"),
    row!("[second]" => "[second padding:none]"),
    row!("[year]" => "[year padding:none]"),
    row!("[weekday repr:short]" => "\
        [first [[weekday case_sensitive:false]] [[weekday repr:short case_sensitive:false]]]"),
    row!("[weekday]" => "\
        [first [[weekday case_sensitive:false]] [[weekday repr:short case_sensitive:false]]]"),
    row!("[month repr:short]" => "\
        [first [[month repr:long case_sensitive:false]] [[month repr:short \
        case_sensitive:false]]]"),
    row!("[month repr:long]" => "\
        [first [[month repr:long case_sensitive:false]] [[month repr:short \
        case_sensitive:false]]]"),
    row!("[period]" => "[period case_sensitive:false]"),
    row!("[offset_hour sign:mandatory][offset_minute]" => "\
        [first [[offset_hour sign:mandatory]:[offset_minute]] [[offset_hour \
        sign:mandatory][offset_minute]] [[offset_hour sign:mandatory]]]"),
    row!("[period case:lower]" => "[period case_sensitive:false]"),
];

const GNU: &[Row] = &[
    row!("[year repr:last_two]" refused TwoDigitYear),
    row!("[year repr:last_two base:iso_week]" refused TwoDigitYear),
    row!("[month]/[day]/[year repr:last_two]" refused TwoDigitYear),
    row!("[year repr:last_two padding:none]" refused TwoDigitYear),
    row!("[year repr:last_two padding:space]" refused TwoDigitYear),
    row!("[year repr:last_two base:iso_week padding:none]" refused TwoDigitYear),
    row!("[year repr:last_two base:iso_week padding:space]" refused TwoDigitYear),
];

const CHRONO: &[Row] = &[
    row!("[year repr:last_two]" refused TwoDigitYear),
    row!("[year repr:last_two base:iso_week]" refused TwoDigitYear),
    row!("[month]/[day]/[year repr:last_two]" refused TwoDigitYear),
    row!("[year repr:last_two padding:none]" refused TwoDigitYear),
    row!("[year repr:last_two padding:space]" refused TwoDigitYear),
    row!("[year repr:last_two base:iso_week padding:none]" refused TwoDigitYear),
    row!("[year repr:last_two base:iso_week padding:space]" refused TwoDigitYear),
    row!("[day]" => "[day padding:none]"),
    row!("[hour]" => "[hour padding:none]"),
    row!("[hour repr:12]" => "[hour repr:12 padding:none]"),
    row!("[ordinal]" => "[ordinal padding:none]"),
    row!("[month]" => "[month padding:none]"),
    row!("[minute]" => "[minute padding:none]"),
    row!("[second]" => "[second padding:none]"),
    row!("[year]" => "[year padding:none]"),
    row!("[weekday repr:short]" => "[weekday repr:short case_sensitive:false]"),
    row!("[weekday]" => "\
        [first [[weekday case_sensitive:false]] [[weekday repr:short case_sensitive:false]]]"),
    row!("[month repr:short]" => "[month repr:short case_sensitive:false]"),
    row!("[month repr:long]" => "\
        [first [[month repr:long case_sensitive:false]] [[month repr:short \
        case_sensitive:false]]]"),
    row!("[period]" => "[period case_sensitive:false]"),
    row!("[period case:lower]" => "[period case_sensitive:false]"),
    row!(".[subsecond digits:3]" => "[optional [.[subsecond]]]"),
    row!(".[subsecond digits:6]" => "[optional [.[subsecond]]]"),
    row!(".[subsecond digits:9]" => "[optional [.[subsecond]]]"),
    row!("[offset_hour sign:mandatory][offset_minute]" => "\
        [first [[offset_hour sign:mandatory]:[offset_minute]] [[offset_hour \
        sign:mandatory][offset_minute]]]"),
    row!("[offset_hour sign:mandatory]:[offset_minute]" => "\
        [first [[offset_hour sign:mandatory]:[offset_minute]] [[offset_hour \
        sign:mandatory][offset_minute]]]"),
];

const JIFF: &[Row] = &[
    row!("[year repr:last_two]" refused TwoDigitYear),
    row!("[year repr:last_two base:iso_week]" refused TwoDigitYear),
    row!("[month]/[day]/[year repr:last_two]" refused TwoDigitYear),
    row!("[year repr:last_two padding:none]" refused TwoDigitYear),
    row!("[year repr:last_two padding:space]" refused TwoDigitYear),
    row!("[year repr:last_two base:iso_week padding:none]" refused TwoDigitYear),
    row!("[year repr:last_two base:iso_week padding:space]" refused TwoDigitYear),
    row!("[day]" => "[day padding:none]"),
    row!("[hour]" => "[hour padding:none]"),
    row!("[hour repr:12]" => "[hour repr:12 padding:none]"),
    row!("[ordinal]" => "[ordinal padding:none]"),
    row!("[month]" => "[month padding:none]"),
    row!("[minute]" => "[minute padding:none]"),
    row!("[second]" => "[second padding:none]"),
    row!("[year]" => "[year padding:none]"),
    row!("[weekday repr:short]" => "[weekday repr:short case_sensitive:false]"),
    row!("[weekday]" => "[weekday case_sensitive:false]"),
    row!("[month repr:short]" => "[month repr:short case_sensitive:false]"),
    row!("[month repr:long]" => "[month repr:long case_sensitive:false]"),
    row!("[period]" => "[period case_sensitive:false]"),
    row!("[period case:lower]" => "[period case_sensitive:false]"),
    row!("[subsecond digits:1]" => "[subsecond]"),
    row!("[subsecond digits:2]" => "[subsecond]"),
    row!("[subsecond digits:3]" => "[subsecond]"),
    row!("[subsecond digits:4]" => "[subsecond]"),
    row!("[subsecond digits:5]" => "[subsecond]"),
    row!("[subsecond digits:6]" => "[subsecond]"),
    row!("[subsecond digits:7]" => "[subsecond]"),
    row!("[subsecond digits:8]" => "[subsecond]"),
    row!("[subsecond digits:9]" => "[subsecond]"),
    row!(".[subsecond digits:1]" => "[optional [.[subsecond]]]"),
    row!(".[subsecond digits:2]" => "[optional [.[subsecond]]]"),
    row!(".[subsecond digits:3]" => "[optional [.[subsecond]]]"),
    row!(".[subsecond digits:4]" => "[optional [.[subsecond]]]"),
    row!(".[subsecond digits:5]" => "[optional [.[subsecond]]]"),
    row!(".[subsecond digits:6]" => "[optional [.[subsecond]]]"),
    row!(".[subsecond digits:7]" => "[optional [.[subsecond]]]"),
    row!(".[subsecond digits:8]" => "[optional [.[subsecond]]]"),
    row!(".[subsecond digits:9]" => "[optional [.[subsecond]]]"),
];

const RUBY: &[Row] = &[
    row!("[year repr:last_two]" refused TwoDigitYear),
    row!("[year repr:last_two base:iso_week]" refused TwoDigitYear),
    row!("[month]/[day]/[year repr:last_two]" refused TwoDigitYear),
    row!("[year repr:last_two padding:none]" refused TwoDigitYear),
    row!("[year repr:last_two padding:space]" refused TwoDigitYear),
    row!("[year repr:last_two base:iso_week padding:none]" refused TwoDigitYear),
    row!("[year repr:last_two base:iso_week padding:space]" refused TwoDigitYear),
    row!("[day]" => "[day padding:none]"),
    row!("[hour]" => "[hour padding:none]"),
    row!("[hour repr:12]" => "[hour repr:12 padding:none]"),
    row!("[ordinal]" => "[ordinal padding:none]"),
    row!("[month]" => "[month padding:none]"),
    row!("[minute]" => "[minute padding:none]"),
    row!("[second]" => "[second padding:none]"),
    row!("[weekday repr:short]" => "\
        [first [[weekday case_sensitive:false]] [[weekday repr:short case_sensitive:false]]]"),
    row!("[weekday]" => "\
        [first [[weekday case_sensitive:false]] [[weekday repr:short case_sensitive:false]]]"),
    row!("[month repr:short]" => "\
        [first [[month repr:long case_sensitive:false]] [[month repr:short \
        case_sensitive:false]]]"),
    row!("[month repr:long]" => "\
        [first [[month repr:long case_sensitive:false]] [[month repr:short \
        case_sensitive:false]]]"),
    row!("[period]" => "[period case_sensitive:false]"),
    row!("[period case:lower]" => "[period case_sensitive:false]"),
    row!("[offset_hour sign:mandatory][offset_minute]" => "\
        [first [[offset_hour sign:mandatory]:[offset_minute]:[offset_second]] [[offset_hour \
        sign:mandatory][offset_minute][offset_second]] [[offset_hour \
        sign:mandatory]:[offset_minute]] [[offset_hour sign:mandatory][offset_minute]]]"),
    row!("[offset_hour sign:mandatory]:[offset_minute]" => "\
        [first [[offset_hour sign:mandatory]:[offset_minute]:[offset_second]] [[offset_hour \
        sign:mandatory][offset_minute][offset_second]] [[offset_hour \
        sign:mandatory]:[offset_minute]] [[offset_hour sign:mandatory][offset_minute]]]"),
    row!("[offset_hour sign:mandatory]:[offset_minute]:[offset_second]" => "\
        [first [[offset_hour sign:mandatory]:[offset_minute]:[offset_second]] [[offset_hour \
        sign:mandatory][offset_minute][offset_second]] [[offset_hour \
        sign:mandatory]:[offset_minute]] [[offset_hour sign:mandatory][offset_minute]]]"),
    row!("[subsecond digits:3]" => "[subsecond]"),
    row!("[subsecond digits:9]" => "[subsecond]"),
];

const JAVA: &[Row] = &[row!("[year repr:last_two]" refused TwoDigitYear)];

const GO: &[Row] = &[
    row!("[year repr:last_two]" refused TwoDigitYear),
    row!("[month repr:long]" => "[month repr:long case_sensitive:false]"),
    row!("[month repr:short]" => "[month repr:short case_sensitive:false]"),
    row!("[weekday]" => "[weekday case_sensitive:false]"),
    row!("[weekday repr:short]" => "[weekday repr:short case_sensitive:false]"),
    row!("[ordinal padding:space]" => "[ordinal padding:none]"),
    row!("[hour]" => "[hour padding:none]"),
];

const MOMENT: &[Row] = &[
    row!("[year repr:last_two]" refused TwoDigitYear),
    row!("[year repr:last_two base:iso_week]" refused TwoDigitYear),
    row!("[month repr:short]" => "[month repr:short case_sensitive:false]"),
    row!("[month repr:long]" => "[month repr:long case_sensitive:false]"),
    row!("[weekday repr:short]" => "[weekday repr:short case_sensitive:false]"),
    row!("[weekday]" => "[weekday case_sensitive:false]"),
    row!("[period]" => "[period case_sensitive:false]"),
    row!("[period case:lower]" => "[period case_sensitive:false]"),
    row!("[offset_hour sign:mandatory]:[offset_minute]" => "\
        [first [[offset_hour sign:mandatory]:[offset_minute]] [[offset_hour \
        sign:mandatory][offset_minute]] [[offset_hour sign:mandatory]]]"),
    row!("[offset_hour sign:mandatory][offset_minute]" => "\
        [first [[offset_hour sign:mandatory]:[offset_minute]] [[offset_hour \
        sign:mandatory][offset_minute]] [[offset_hour sign:mandatory]]]"),
];
