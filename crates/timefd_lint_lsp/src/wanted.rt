//! Which kinds of actions a request asks for.

ghost use Rattle.std.specs.Prelude.{◌≡◌, option_map};
ghost use Rattle.serde_json.specs.View.{items_view, view};
ghost use Rattle.timefd_lint_lsp.specs.WantedKinds as spec;

use crate::editor::WantedActions;
use serde_json::Value;

/// Which actions are wanted: those whose kinds are in the list `only`, or below one of these, as
/// `source.fixAll` is below `source`. If there is no such list, fixes and rewrites are wanted.
pub fn wanted_in(value: &Value) -> WantedActions
    ensures { result ≡ spec.wanted_in (view value.now) }
{
    match only_in(value) {
        Some(kinds) => all_wanted(kinds),
        None => WantedActions {
            fixes: true,
            rewrites: true,
            fix_all: false,
        },
    }
}

fn only_in(value: &Value) -> Option<&Vec<Value>>
    ensures { option_map (λ kinds. items_view kinds.now.items) result ≡ spec.only_in (view value.now) }
{
    match value.pointer("/params/context/only") {
        Some(kinds) => kinds.as_array(),
        None => None,
    }
}

// What is wanted by some kinds together.
fn all_wanted(kinds: &[Value]) -> WantedActions
    ensures { result ≡ spec.all_wanted (items_view kinds.now) }
{
    let mut wanted = WantedActions {
        fixes: false,
        rewrites: false,
        fix_all: false,
    };
    for kind in kinds {
        let more = wanted_by(kind);
        wanted = either(wanted, more);
    }
    wanted
}

fn either(one: WantedActions, other: WantedActions) -> WantedActions
    ensures { result ≡ spec.either one other }
{
    WantedActions {
        fixes: one.fixes || other.fixes,
        rewrites: one.rewrites || other.rewrites,
        fix_all: one.fix_all || other.fix_all,
    }
}

// What is wanted by a kind. What isn't a text asks for nothing.
fn wanted_by(kind: &Value) -> WantedActions
    ensures { result ≡ spec.wanted_by (view kind.now) }
{
    match kind.as_str() {
        Some(kind) => of_kind(kind),
        None => WantedActions {
            fixes: false,
            rewrites: false,
            fix_all: false,
        },
    }
}

// What is wanted by the kind with this name. All kinds are below the empty one.
fn of_kind(kind: &str) -> WantedActions
    ensures { result ≡ spec.of_kind kind.now }
{
    WantedActions {
        fixes: asks_for_fixes(kind),
        rewrites: asks_for_rewrites(kind),
        fix_all: asks_for_fix_all(kind),
    }
}

fn asks_for_fixes(kind: &str) -> bool
    ensures { result ≡ spec.asks_for_fixes kind.now }
{
    kind == "" || kind == "quickfix"
}

fn asks_for_rewrites(kind: &str) -> bool
    ensures { result ≡ spec.asks_for_rewrites kind.now }
{
    kind == "" || kind == "refactor" || kind == "refactor.rewrite"
}

fn asks_for_fix_all(kind: &str) -> bool
    ensures { result ≡ spec.asks_for_fix_all kind.now }
{
    kind == "" || kind == "source" || kind == "source.fixAll" || kind == "source.fixAll.timefd"
}
