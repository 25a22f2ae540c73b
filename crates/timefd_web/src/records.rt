//! Objects in a list, and fields that are true or false.

ghost use Rattle.std.specs.Prelude.{◌≡◌, ◌++◌, ℕ, List, flat_map, IfOk, OnOk};
ghost use Rattle.timefd_web.specs.Records as spec;

use std::alloc::{AllocError, Global};

/// What is written as an object in a list.
pub trait Record {
    /// The text of the object.
    ghost object_text: { Self → List ℕ };

    /// The object. An `Err` says that memory ran out.
    fn object(&self, alloc: Global) -> Result<Vec<u8>, AllocError>
        ensures { IfOk result (λ object. object.items ≡ object_text self.now) };
}

/// Appends the front of a field, which is everything before the value, and the value: a list of
/// objects.
pub fn push_list<T: Record>(
    alloc: Global,
    out: &mut Vec<u8>,
    front: &str,
    records: &[T],
) -> Result<(), AllocError>
    ensures { OnOk result (out.new.items
        ≡ out.old.items ++ (front.now ++ spec.listed T.object_text records.now)) }
{
    out.extend_from_slice(front.as_bytes())?;
    match records {
        [] => out.extend_from_slice(b"[]"),
        [first, others @ ..] => {
            push_one(alloc, out, "[", first)?;
            push_others(alloc, out, others)?;
            out.extend_from_slice(b"]")
        }
    }
}

fn push_others<T: Record>(alloc: Global, out: &mut Vec<u8>, records: &[T]) -> Result<(), AllocError>
    ensures { OnOk result (out.new.items
        ≡ out.old.items ++ flat_map (spec.after_comma T.object_text) records.now) }
{
    for one in records {
        push_one(alloc, out, ",", one)?;
    }
    Ok(())
}

fn push_one<T: Record>(
    alloc: Global,
    out: &mut Vec<u8>,
    front: &str,
    one: &T,
) -> Result<(), AllocError>
    ensures { OnOk result (out.new.items ≡ out.old.items ++ (front.now ++ T.object_text one.now)) }
{
    let object = one.object(alloc)?;
    out.extend_from_slice(front.as_bytes())?;
    out.extend_from_slice(&object)
}

/// Appends the front of a field, which is everything before the value, and the value: true or false.
pub fn push_truth(out: &mut Vec<u8>, front: &str, is_so: bool) -> Result<(), AllocError>
    ensures { OnOk result (out.new.items ≡ out.old.items ++ spec.truth_field front.now is_so) }
{
    out.extend_from_slice(front.as_bytes())?;
    if is_so {
        out.extend_from_slice(b"true")
    } else {
        out.extend_from_slice(b"false")
    }
}
