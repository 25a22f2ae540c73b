//! What components write for one fixed moment: 2026-02-03 09:05:07.012345678 +01:30:00, a Tuesday. Its
//! numbers show how they are padded.

ghost use Rattle.std.specs.Prelude.{◌≡◌, IfErr, IfOk, IsUtf8, Ok, string_bytes};
ghost use Rattle.timefd_lang_component.specs.Modern.{modern};
ghost use Rattle.timefd_lang_component.specs.Texts.{IsText};
ghost use Rattle.timefd_date_format.specs.Written.{shown};
ghost use Rattle.timefd_lint_explain.specs.Samples.{IsExample, IsMemory, IsSample};

use std::alloc::{AllocError, Global};
use timefd_date_format::{TextError, format_items};
use timefd_date_moment::{Date, Moment, Time, UtcOffset};
use timefd_lang_component::Component;
use timefd_lang_node_list::item::BorrowedFormatItem;

/// What the formatter writes for a component at that moment. A deprecated component has the text of the
/// component that replaces it. An `Err` says that memory ran out.
#[tactic(auto, using(crate::proofs::SampleLemmas::of_example))]
pub fn sample(alloc: Global, component: Component) -> Result<String, AllocError>
    ensures written { IfOk result (λ text. IsExample component (string_bytes text)) }
    ensures text { IfOk result (λ text. IsText (modern component) (string_bytes text)) }
{
    text_of(alloc, moment(), component)
}

fn moment() -> Moment
    ensures { IsSample result }
{
    Moment {
        date: Some(Date {
            years: 1_002_026,
            month: 2,
            day: 3,
        }),
        time: Some(Time {
            hour: 9,
            minute: 5,
            second: 7,
            nanosecond: 12_345_678,
        }),
        offset: Some(UtcOffset {
            is_negative: false,
            seconds: 5_400,
        }),
    }
}

fn text_of(alloc: Global, moment: Moment, component: Component) -> Result<String, AllocError>
    requires { IsSample moment }
    ensures { IfOk result (λ text. shown moment component ≡ Ok (string_bytes text)) }
{
    match bytes_of(alloc, moment, component) {
        Ok(bytes) => Ok(String::from_utf8(bytes).unwrap()),
        Err(TextError::Unshown(_)) => unreachable!(),
        Err(TextError::Memory(error)) => Err(error),
    }
}

#[tactic(auto, using(crate::proofs::SampleLemmas::one))]
fn bytes_of(alloc: Global, moment: Moment, component: Component) -> Result<Vec<u8>, TextError>
    requires { IsSample moment }
    ensures written { IfOk result (λ bytes. shown moment component ≡ Ok bytes.items) }
    ensures utf8 { IfOk result (λ bytes. IsUtf8 bytes.items) }
    ensures memory { IfErr result IsMemory }
{
    format_items(alloc, moment, &[BorrowedFormatItem::Component(component)])
}
