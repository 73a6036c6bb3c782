//! Writing answers.

ghost use Rattle.std.specs.Prelude.{◌≡◌, ◌++◌, ◌∷◌, [], OnOk};
ghost use Rattle.zeo_messages.specs.Answers.{kind_of, value_of, stage_name, revision_text, line_text, commit_text};
ghost use Rattle.zeo_values.specs.Values.{count_text, list_of, tuple_text, bytes_text, id_text, maybe_text};

use crate::answer::{Answer, Stage};
use crate::refusal_text::put_refusal;
use std::alloc::AllocError;
use zb_ids::Tid;
use zb_model::{LogLine, NewsCommit, Revision};
use zeo_values::{
    put_bytes, put_closing, put_count, put_id, put_maybe_count, put_maybe_id, put_name, put_oids,
    put_opening,
};

/// The method of an answer.
pub(crate) fn kind_of(answer: &Answer) -> &'static [u8]
    ensures { result.now ≡ kind_of answer.now }
{
    match answer {
        Answer::Refused { .. } => b".error",
        _ => b".reply",
    }
}

fn put_revision(text: &mut Vec<u8>, revision: &Revision) -> Result<(), AllocError>
    ensures { OnOk result (text.new.items ≡ text.old.items ++ revision_text revision.now) }
{
    text.push(0x28)?;
    put_id(text, revision.tid.0)?;
    put_maybe_count(text, revision.size)?;
    put_bytes(text, revision.user.as_slice())?;
    put_bytes(text, revision.description.as_slice())?;
    Ok(text.push(0x74)?)
}

fn put_line(text: &mut Vec<u8>, line: &LogLine) -> Result<(), AllocError>
    ensures { OnOk result (text.new.items ≡ text.old.items ++ line_text line.now) }
{
    put_id(text, line.tid.0)?;
    put_bytes(text, line.user.as_slice())?;
    put_bytes(text, line.description.as_slice())?;
    Ok(text.push(0x87)?)
}

fn put_commit(text: &mut Vec<u8>, commit: &NewsCommit) -> Result<(), AllocError>
    ensures { OnOk result (text.new.items ≡ text.old.items ++ commit_text commit.now) }
{
    put_id(text, commit.tid.0)?;
    put_oids(text, commit.oids.as_slice())?;
    Ok(text.push(0x86)?)
}

#[tactic(auto, using(zeo_values::specs::WrittenLaws::list_begun, zeo_values::specs::WrittenLaws::list_on, zeo_values::specs::WrittenLaws::list_over))]
fn put_revisions(text: &mut Vec<u8>, revisions: &[Revision]) -> Result<(), AllocError>
    ensures { OnOk result (text.new.items ≡ text.old.items ++ list_of revision_text revisions.now) }
{
    put_opening(text, revisions.len())?;
    for revision in revisions {
        put_revision(text, revision)?;
    }
    put_closing(text, revisions.len())
}

#[tactic(auto, using(zeo_values::specs::WrittenLaws::list_begun, zeo_values::specs::WrittenLaws::list_on, zeo_values::specs::WrittenLaws::list_over))]
fn put_lines(text: &mut Vec<u8>, lines: &[LogLine]) -> Result<(), AllocError>
    ensures { OnOk result (text.new.items ≡ text.old.items ++ list_of line_text lines.now) }
{
    put_opening(text, lines.len())?;
    for line in lines {
        put_line(text, line)?;
    }
    put_closing(text, lines.len())
}

#[tactic(auto, using(zeo_values::specs::WrittenLaws::list_begun, zeo_values::specs::WrittenLaws::list_on, zeo_values::specs::WrittenLaws::list_over))]
fn put_commits(text: &mut Vec<u8>, commits: &[NewsCommit]) -> Result<(), AllocError>
    ensures { OnOk result (text.new.items ≡ text.old.items ++ list_of commit_text commits.now) }
{
    put_opening(text, commits.len())?;
    for commit in commits {
        put_commit(text, commit)?;
    }
    put_closing(text, commits.len())
}

fn name_of(stage: Stage) -> &'static [u8]
    ensures { result.now ≡ stage_name stage }
{
    match stage {
        Stage::Marking => b"marking",
        Stage::Marked => b"marked",
        Stage::Copying => b"copying",
        Stage::Copied => b"copied",
    }
}

fn put_two_counts(text: &mut Vec<u8>, one: u64, other: u64) -> Result<(), AllocError>
    ensures { OnOk result (text.new.items ≡ text.old.items ++ tuple_text (count_text one ∷ count_text other ∷ [])) }
{
    put_count(text, one)?;
    put_count(text, other)?;
    Ok(text.push(0x86)?)
}

fn put_loaded(
    text: &mut Vec<u8>,
    bytes: &[u8],
    serial: Tid,
    end: Option<Tid>,
    upto: Tid,
) -> Result<(), AllocError>
    ensures { OnOk result (text.new.items ≡ text.old.items ++ tuple_text (bytes_text bytes.now ∷ id_text serial ∷ maybe_text id_text end ∷ id_text upto ∷ [])) }
{
    text.push(0x28)?;
    put_bytes(text, bytes)?;
    put_id(text, serial.0)?;
    put_maybe_id(text, end)?;
    put_id(text, upto.0)?;
    Ok(text.push(0x74)?)
}

/// Writes the value of an answer.
pub(crate) fn put_value(text: &mut Vec<u8>, answer: &Answer) -> Result<(), AllocError>
    ensures { OnOk result (text.new.items ≡ text.old.items ++ value_of answer.now) }
{
    match answer {
        Answer::Done => Ok(text.push(0x4e)?),
        Answer::OneTid { tid } => put_id(text, tid.0),
        Answer::Loaded {
            bytes,
            serial,
            end,
            upto,
        } => put_loaded(text, bytes.as_slice(), *serial, *end, *upto),
        Answer::Nothing { switches } => {
            text.push(0x4e)?;
            put_count(text, *switches)?;
            Ok(text.push(0x86)?)
        }
        Answer::EmptyList => Ok(text.push(0x5d)?),
        Answer::Oids { oids } => put_oids(text, oids.as_slice()),
        Answer::Revisions { list } => put_revisions(text, list.as_slice()),
        Answer::LogLines { list } => put_lines(text, list.as_slice()),
        Answer::Commits { list } => put_commits(text, list.as_slice()),
        Answer::Packed { kept, dropped } => put_two_counts(text, *kept, *dropped),
        Answer::Turned { stage, count } => {
            put_name(text, name_of(*stage))?;
            put_count(text, *count)?;
            Ok(text.push(0x86)?)
        }
        Answer::Switched { kept, dropped } => {
            put_name(text, b"packed")?;
            put_count(text, *kept)?;
            put_count(text, *dropped)?;
            Ok(text.push(0x87)?)
        }
        Answer::TidAndCount { tid, count } => {
            put_id(text, tid.0)?;
            put_count(text, *count)?;
            Ok(text.push(0x86)?)
        }
        Answer::Refused { refusal } => put_refusal(text, refusal),
    }
}
