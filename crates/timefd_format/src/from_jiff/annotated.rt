//! Moments with a time zone in brackets, such as `2026-11-23T05:36:07+01:00[Europe/Berlin]`.

ghost use Rattle.std.specs.Prelude.{Bool, option_map};
ghost use Rattle.jiff_fmt.specs.Temporal.{kind_view, parse_pieces, pieces_view, zone_piece_view};
ghost use Rattle.timefd_format.specs.FromJiff.Annotated.{AreAnnotated, IsAnnotation, IsReadAnnotated, IsZoneRead};

use crate::from_jiff::reading::of_pieces;
use jiff_core::Error;
use jiff_fmt::temporal::{self, Pieces, TimeZoneAnnotation, TimeZoneAnnotationKind};
use timefd_date_moment::Moment;

/// What is in brackets after a moment.
#[derive(Debug, Clone, Copy, PartialEq, Eq)]
pub enum Annotation<'a> {
    /// The name of a time zone.
    Named(&'a str),
    /// An offset, in seconds ahead of UTC.
    Offset(i32),
}

/// A moment, and the time zone in brackets after it.
#[derive(Debug, Clone, Copy, PartialEq, Eq)]
pub struct Annotated<'a> {
    /// The moment.
    pub moment: Moment,
    /// The time zone. It doesn't change the moment.
    pub zone: Option<Annotation<'a>>,
}

/// Reads a moment as [`read_moment`](crate::from_jiff::read_moment) does, and returns the time zone in brackets too.
/// The time zone isn't checked. An `Err` says what is wrong with the text.
#[tactic(auto, using(crate::proofs::JiffLemmas::AnnotatedLemmas::reads))]
pub fn read_annotated(text: &str) -> Result<Annotated<'_>, Error>
    ensures { IsReadAnnotated (parse_pieces text.now) result }
{
    match temporal::parse_pieces(text.as_bytes()) {
        Ok(pieces) => Ok(with_zone(pieces)),
        Err(error) => Err(error),
    }
}

fn with_zone(pieces: Pieces<'_>) -> Annotated<'_>
    ensures { AreAnnotated (pieces_view pieces.entry) result }
{
    let moment = of_pieces(pieces);
    Annotated {
        moment,
        zone: zone_of(pieces.time_zone_annotation),
    }
}

fn zone_of(annotation: Option<TimeZoneAnnotation<'_>>) -> Option<Annotation<'_>>
    ensures { IsZoneRead (option_map zone_piece_view annotation.entry) result }
{
    match annotation {
        Some(annotation) => Some(named(annotation.kind)),
        None => None,
    }
}

fn named(kind: TimeZoneAnnotationKind<'_>) -> Annotation<'_>
    ensures { (critical : Bool) → IsAnnotation (kind_view critical kind.entry) result }
{
    match kind {
        TimeZoneAnnotationKind::Named(name) => Annotation::Named(name),
        TimeZoneAnnotationKind::Offset(seconds) => Annotation::Offset(seconds),
    }
}
