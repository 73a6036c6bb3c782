//! Writing refusals.

ghost use Rattle.std.specs.Prelude.{◌≡◌, ◌++◌, ◌∷◌, [], OnOk};
ghost use Rattle.zeo_messages.specs.Answers.{refusal_fields, refusal_name, refusal_text, why_name, why_fields};
ghost use Rattle.zeo_values.specs.Values.{count_text, ended, id_text, name_text, truth_text, tuple_text};

use std::alloc::AllocError;
use zb_model::{Refusal, Why};
use zeo_values::{put_count, put_id, put_name, put_truth};

fn put_bare(text: &mut Vec<u8>, name: &[u8]) -> Result<(), AllocError>
    ensures { OnOk result (text.new.items ≡ text.old.items ++ tuple_text (name_text name.now ∷ [])) }
{
    put_name(text, name)?;
    Ok(text.push(0x85)?)
}

fn put_single(text: &mut Vec<u8>, name: &[u8], id: u64) -> Result<(), AllocError>
    ensures { OnOk result (text.new.items ≡ text.old.items ++ tuple_text (name_text name.now ∷ id_text id ∷ [])) }
{
    put_name(text, name)?;
    put_id(text, id)?;
    Ok(text.push(0x86)?)
}

fn put_double(text: &mut Vec<u8>, name: &[u8], oid: u64, tid: u64) -> Result<(), AllocError>
    ensures { OnOk result (text.new.items ≡ text.old.items ++ tuple_text (name_text name.now ∷ id_text oid ∷ id_text tid ∷ [])) }
{
    put_name(text, name)?;
    put_id(text, oid)?;
    put_id(text, tid)?;
    Ok(text.push(0x87)?)
}

fn put_counting(text: &mut Vec<u8>, name: &[u8], count: u64) -> Result<(), AllocError>
    ensures { OnOk result (text.new.items ≡ text.old.items ++ tuple_text (name_text name.now ∷ count_text count ∷ [])) }
{
    put_name(text, name)?;
    put_count(text, count)?;
    Ok(text.push(0x86)?)
}

fn put_missing(text: &mut Vec<u8>, name: &[u8], oid: u64, packed: bool) -> Result<(), AllocError>
    ensures { OnOk result (text.new.items ≡ text.old.items ++ tuple_text (name_text name.now ∷ id_text oid ∷ truth_text packed ∷ [])) }
{
    put_name(text, name)?;
    put_id(text, oid)?;
    put_truth(text, packed)?;
    Ok(text.push(0x87)?)
}

/// Writes a mark, a name, and an object with two serials.
fn put_conflict(
    text: &mut Vec<u8>,
    name: &[u8],
    oid: u64,
    base: u64,
    current: u64,
) -> Result<(), AllocError>
    ensures { OnOk result (text.new.items ≡ text.old.items ++ 0x28 ∷ (name_text name.now ++ (id_text oid ++ (id_text base ++ id_text current)))) }
{
    text.push(0x28)?;
    put_name(text, name)?;
    put_id(text, oid)?;
    put_id(text, base)?;
    put_id(text, current)
}

fn reason_of(why: &Why) -> &'static [u8]
    ensures { result.now ≡ why_name why.now }
{
    match why {
        Why::NoRule => b"NoRule",
        Why::Gone => b"Gone",
        Why::NoOld => b"NoOld",
        Why::Unreadable => b"Unreadable",
        Why::NotEmbedded => b"NotEmbedded",
        Why::Link => b"Link",
        Why::EmptySide => b"EmptySide",
        Why::Key(_) => b"Key",
        Why::FirstKey => b"FirstKey",
        Why::Overflow => b"Overflow",
    }
}

/// Writes a reason, and the end of the tuple.
fn put_why(text: &mut Vec<u8>, why: &Why) -> Result<(), AllocError>
    ensures { OnOk result (text.new.items ≡ text.old.items ++ ended (name_text (why_name why.now) ∷ why_fields why.now) (0x74 ∷ [])) }
{
    put_name(text, reason_of(why))?;
    if let Why::Key(spelling) = why {
        text.extend_from_slice(spelling.as_slice())?;
    }
    Ok(text.push(0x74)?)
}

fn name_of(refusal: &Refusal) -> &'static [u8]
    ensures { result.now ≡ refusal_name refusal.now }
{
    match refusal {
        Refusal::TidsSpent => b"TidsSpent",
        Refusal::StoreFault => b"StoreFault",
        Refusal::Conflict { .. } => b"Conflict",
        Refusal::ReadConflict { .. } => b"ReadConflict",
        Refusal::TooLong { .. } => b"TooLong",
        Refusal::UndoUnknown { .. } => b"UndoUnknown",
        Refusal::UndoPacked { .. } => b"UndoPacked",
        Refusal::UndoConflict { .. } => b"UndoConflict",
        Refusal::Overtaken { .. } => b"Overtaken",
        Refusal::Unreadable { .. } => b"Unreadable",
        Refusal::PackedAlready { .. } => b"PackedAlready",
        Refusal::Missing { .. } => b"Missing",
        Refusal::NoTransaction => b"NoTransaction",
        Refusal::InTransaction => b"InTransaction",
        Refusal::NotVoted => b"NotVoted",
        Refusal::Voted => b"Voted",
        Refusal::Busy { .. } => b"Busy",
        Refusal::PackRunning { .. } => b"PackRunning",
        Refusal::OidsSpent => b"OidsSpent",
        Refusal::JournalFull { .. } => b"JournalFull",
        Refusal::TooManySessions { .. } => b"TooManySessions",
        Refusal::NotOpen => b"NotOpen",
        Refusal::NoSavepoint { .. } => b"NoSavepoint",
        Refusal::FrameTooLong { .. } => b"FrameTooLong",
        Refusal::BadMessage => b"BadMessage",
        Refusal::LinkFault => b"LinkFault",
        Refusal::Closed => b"Closed",
        Refusal::Mixed { .. } => b"Mixed",
        Refusal::NoPack => b"NoPack",
        Refusal::NotATree { .. } => b"NotATree",
        Refusal::NodeMissing { .. } => b"NodeMissing",
        Refusal::BadKey => b"BadKey",
        Refusal::ReadFault => b"ReadFault",
        Refusal::NothingToDelete { .. } => b"NothingToDelete",
        Refusal::Connected { .. } => b"Connected",
        Refusal::StepsSpent => b"StepsSpent",
        Refusal::Memory => b"Memory",
    }
}

/// Writes the tuple of a name and a refusal's fields.
fn put_fields(text: &mut Vec<u8>, name: &[u8], refusal: &Refusal) -> Result<(), AllocError>
    ensures { OnOk result (text.new.items ≡ text.old.items ++ tuple_text (name_text name.now ∷ refusal_fields refusal.now)) }
{
    match refusal {
        Refusal::Conflict {
            oid,
            base,
            current,
            why,
        } => {
            put_conflict(text, name, oid.0, base.0, current.0)?;
            put_why(text, why)
        }
        Refusal::ReadConflict { oid, base, current } => {
            put_conflict(text, name, oid.0, base.0, current.0)?;
            Ok(text.push(0x74)?)
        }
        Refusal::Missing { oid, packed } => put_missing(text, name, oid.0, *packed),
        Refusal::TooLong { length } => put_counting(text, name, *length),
        Refusal::UndoUnknown { tid } => put_single(text, name, tid.0),
        Refusal::UndoPacked { tid } => put_single(text, name, tid.0),
        Refusal::UndoConflict { oid, later } => put_double(text, name, oid.0, later.0),
        Refusal::Overtaken { oid, tid } => put_double(text, name, oid.0, tid.0),
        Refusal::Unreadable { oid, tid } => put_double(text, name, oid.0, tid.0),
        Refusal::PackedAlready { packed } => put_single(text, name, packed.0),
        Refusal::Busy { holder } => put_counting(text, name, u64::from(*holder)),
        Refusal::PackRunning { session } => put_counting(text, name, u64::from(*session)),
        Refusal::JournalFull { count } => put_counting(text, name, *count),
        Refusal::TooManySessions { count } => put_counting(text, name, u64::from(*count)),
        Refusal::NoSavepoint { number } => put_counting(text, name, *number),
        Refusal::FrameTooLong { length } => put_counting(text, name, u64::from(*length)),
        Refusal::Mixed { stores } => put_counting(text, name, *stores),
        Refusal::NotATree { oid } => put_single(text, name, oid.0),
        Refusal::NodeMissing { oid } => put_single(text, name, oid.0),
        Refusal::NothingToDelete { oid, current } => put_double(text, name, oid.0, current.0),
        Refusal::Connected { session } => put_counting(text, name, u64::from(*session)),
        _ => put_bare(text, name),
    }
}

/// Writes the tuple of a refusal's name and its fields.
pub(crate) fn put_refusal(text: &mut Vec<u8>, refusal: &Refusal) -> Result<(), AllocError>
    ensures { OnOk result (text.new.items ≡ text.old.items ++ refusal_text refusal.now) }
{
    put_fields(text, name_of(refusal), refusal)
}
