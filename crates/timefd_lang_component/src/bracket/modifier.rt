//! Modifiers as they are written in brackets, each after a space.

ghost use Rattle.std.specs.Prelude.{◌≡◌};
ghost use Rattle.timefd_lang_component.specs.Bracket.Words as spec;

use crate::bracket::defaults::Defaults;
use timefd_modifier::{Padding, SubsecondDigits, TrailingInput};

pub fn padded(padding: Padding, defaults: Defaults) -> &'static str
    ensures { result.now ≡ spec.padded defaults padding }
{
    match padding {
        Padding::Zero => defaults.choose(" padding:zero", ""),
        Padding::Space => " padding:space",
        Padding::None => " padding:none",
    }
}

pub fn signed(is_mandatory: bool, defaults: Defaults) -> &'static str
    ensures { result.now ≡ spec.signed defaults is_mandatory }
{
    if is_mandatory {
        " sign:mandatory"
    } else {
        defaults.choose(" sign:automatic", "")
    }
}

pub fn cased(is_case_sensitive: bool, defaults: Defaults) -> &'static str
    ensures { result.now ≡ spec.cased defaults is_case_sensitive }
{
    if is_case_sensitive {
        defaults.choose(" case_sensitive:true", "")
    } else {
        " case_sensitive:false"
    }
}

pub fn indexed(is_one_indexed: bool, defaults: Defaults) -> &'static str
    ensures { result.now ≡ spec.indexed defaults is_one_indexed }
{
    if is_one_indexed {
        defaults.choose(" one_indexed:true", "")
    } else {
        " one_indexed:false"
    }
}

pub fn lettered(is_uppercase: bool, defaults: Defaults) -> &'static str
    ensures { result.now ≡ spec.lettered defaults is_uppercase }
{
    if is_uppercase {
        defaults.choose(" case:upper", "")
    } else {
        " case:lower"
    }
}

pub fn numbered(digits: SubsecondDigits, defaults: Defaults) -> &'static str
    ensures { result.now ≡ spec.numbered defaults digits }
{
    match digits {
        SubsecondDigits::OneOrMore => defaults.choose(" digits:1+", ""),
        SubsecondDigits::One => " digits:1",
        SubsecondDigits::Two => " digits:2",
        SubsecondDigits::Three => " digits:3",
        SubsecondDigits::Four => " digits:4",
        SubsecondDigits::Five => " digits:5",
        SubsecondDigits::Six => " digits:6",
        SubsecondDigits::Seven => " digits:7",
        SubsecondDigits::Eight => " digits:8",
        SubsecondDigits::Nine => " digits:9",
    }
}

pub fn trailed(trailing_input: TrailingInput, defaults: Defaults) -> &'static str
    ensures { result.now ≡ spec.trailed defaults trailing_input }
{
    match trailing_input {
        TrailingInput::Prohibit => defaults.choose(" trailing_input:prohibit", ""),
        TrailingInput::Discard => " trailing_input:discard",
    }
}
