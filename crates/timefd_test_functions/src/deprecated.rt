//! The warning of a component that no text spells.

use std::alloc::Global;
use std::process::Abort;
use timefd_lang_component::Component;
use timefd_lang_node_list::item::BorrowedFormatItem;
use timefd_lang_warnings::{LanguageStyle, ReadDescription, Warning, warns};
use timefd_modifier::{Hour, Hour24};

fn is_deprecated(rt: &impl Abort, alloc: Global, component: Component) -> bool {
    let warning = Warning::named("deprecated-component").expect(rt, "a warning");
    let items = vec![in alloc; BorrowedFormatItem::Component(component)].expect(rt, "memory");
    warns(
        LanguageStyle::Brackets,
        ReadDescription::Items(&items),
        warning,
    )
}

#[test]
fn a_component_that_stands_for_another_is_reported(rt: HostRuntime) {
    let old = Component::Hour(Hour::default());
    let modern = Component::Hour24(Hour24::default());
    assert!(rt;
        is_deprecated(&rt, rt.alloc(), old),
        "the old form of the hour"
    );
    assert!(rt; !is_deprecated(&rt, rt.alloc(), modern), "its modern form");
}
