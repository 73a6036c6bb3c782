//! Writing calls.

ghost use Rattle.std.specs.Prelude.{◌≡◌, ◌++◌, ◌∷◌, [], OnOk};
ghost use Rattle.zeo_messages.specs.Calls.{arguments_of, flag_of, method_of, profile_text};
ghost use Rattle.zeo_values.specs.Values.{bytes_text, id_text, list_of, tuple_text};

use crate::call::Call;
use std::alloc::AllocError;
use zb_ids::Tid;
use zeo_values::{put_bytes, put_count, put_id, put_name, put_tids, put_truth};

/// The method of a call.
pub(crate) fn method_of(call: &Call) -> &'static [u8]
    ensures { result.now ≡ method_of call.now }
{
    match call {
        Call::Register { .. } => b"register",
        Call::LoadBefore { .. } => b"loadBefore",
        Call::NewOids { .. } => b"new_oids",
        Call::TpcBegin { .. } => b"tpc_begin",
        Call::Storea { .. } => b"storea",
        Call::DeleteObject { .. } => b"deleteObject",
        Call::CheckCurrentSerial { .. } => b"checkCurrentSerialInTransaction",
        Call::Vote => b"vote",
        Call::Undoa { .. } => b"undoa",
        Call::TpcFinish => b"tpc_finish",
        Call::TpcAbort => b"tpc_abort",
        Call::History { .. } => b"history",
        Call::UndoInfo => b"undoInfo",
        Call::Pack { collect: true, .. } => b"pack",
        Call::Pack { collect: false, .. } => b"packNoGc",
        Call::PackBegin { collect: true, .. } => b"packBegin",
        Call::PackBegin { collect: false, .. } => b"packBeginNoGc",
        Call::PackTurn => b"packTurn",
        Call::Sync => b"sync",
        Call::LastTransaction => b"lastTransaction",
        Call::GetInvalidations { .. } => b"getInvalidations",
    }
}

/// 1 for a call that isn't answered, else 0.
pub(crate) fn flag_of(call: &Call) -> u64
    ensures { result ≡ flag_of call.now }
{
    match call {
        Call::TpcBegin { .. }
        | Call::Storea { .. }
        | Call::DeleteObject { .. }
        | Call::CheckCurrentSerial { .. } => 1,
        _ => 0,
    }
}

fn put_profile(text: &mut Vec<u8>, again: bool) -> Result<(), AllocError>
    ensures { OnOk result (text.new.items ≡ text.old.items ++ profile_text again) }
{
    if again {
        put_name(text, b"2")
    } else {
        put_name(text, b"1")
    }
}

/// Writes the tuple of one number of an object or a transaction.
pub(crate) fn put_one_id(text: &mut Vec<u8>, id: u64) -> Result<(), AllocError>
    ensures { OnOk result (text.new.items ≡ text.old.items ++ tuple_text (id_text id ∷ [])) }
{
    put_id(text, id)?;
    Ok(text.push(0x85)?)
}

fn put_two_ids(text: &mut Vec<u8>, oid: u64, tid: u64) -> Result<(), AllocError>
    ensures { OnOk result (text.new.items ≡ text.old.items ++ tuple_text (id_text oid ∷ id_text tid ∷ [])) }
{
    put_id(text, oid)?;
    put_id(text, tid)?;
    Ok(text.push(0x86)?)
}

fn put_three_bytes(
    text: &mut Vec<u8>,
    one: &[u8],
    two: &[u8],
    three: &[u8],
) -> Result<(), AllocError>
    ensures { OnOk result (text.new.items ≡ text.old.items ++ tuple_text (bytes_text one.now ∷ bytes_text two.now ∷ bytes_text three.now ∷ [])) }
{
    put_bytes(text, one)?;
    put_bytes(text, two)?;
    put_bytes(text, three)?;
    Ok(text.push(0x87)?)
}

fn put_store(text: &mut Vec<u8>, oid: u64, base: u64, bytes: &[u8]) -> Result<(), AllocError>
    ensures { OnOk result (text.new.items ≡ text.old.items ++ tuple_text (id_text oid ∷ id_text base ∷ bytes_text bytes.now ∷ [])) }
{
    put_id(text, oid)?;
    put_id(text, base)?;
    put_bytes(text, bytes)?;
    Ok(text.push(0x87)?)
}

fn put_undo(
    text: &mut Vec<u8>,
    user: &[u8],
    description: &[u8],
    tids: &[Tid],
) -> Result<(), AllocError>
    ensures { OnOk result (text.new.items ≡ text.old.items ++ tuple_text (bytes_text user.now ∷ bytes_text description.now ∷ list_of id_text tids.now ∷ [])) }
{
    put_bytes(text, user)?;
    put_bytes(text, description)?;
    put_tids(text, tids)?;
    Ok(text.push(0x87)?)
}

/// Writes the tuple of a call's arguments.
pub(crate) fn put_arguments(text: &mut Vec<u8>, call: &Call) -> Result<(), AllocError>
    ensures { OnOk result (text.new.items ≡ text.old.items ++ tuple_text (arguments_of call.now)) }
{
    match call {
        Call::Register { again } => {
            put_profile(text, *again)?;
            put_truth(text, false)?;
            Ok(text.push(0x86)?)
        }
        Call::LoadBefore { oid, front } => put_two_ids(text, oid.0, front.0),
        Call::NewOids { count } => {
            put_count(text, u64::from(*count))?;
            Ok(text.push(0x85)?)
        }
        Call::TpcBegin {
            user,
            description,
            extension,
        } => put_three_bytes(
            text,
            user.as_slice(),
            description.as_slice(),
            extension.as_slice(),
        ),
        Call::Storea { oid, base, bytes } => put_store(text, oid.0, base.0, bytes.as_slice()),
        Call::DeleteObject { oid, base } => put_two_ids(text, oid.0, base.0),
        Call::CheckCurrentSerial { oid, serial } => put_two_ids(text, oid.0, serial.0),
        Call::Undoa {
            user,
            description,
            tids,
        } => put_undo(
            text,
            user.as_slice(),
            description.as_slice(),
            tids.as_slice(),
        ),
        Call::History { oid } => put_one_id(text, oid.0),
        Call::Pack { tid, .. } => put_one_id(text, tid.0),
        Call::PackBegin { tid, .. } => put_one_id(text, tid.0),
        Call::GetInvalidations { tid, changes } => {
            put_id(text, tid.0)?;
            put_count(text, *changes)?;
            Ok(text.push(0x86)?)
        }
        _ => Ok(text.push(0x29)?),
    }
}
