//! Where a line can stand in a script.

ghost use Rattle.std.specs.Prelude.{◌≡◌, OnOk};
ghost use Rattle.zb_script.specs.Reading.{with_opener};
ghost use Rattle.zb_script.specs.Shape;
ghost use Rattle.zb_script.specs.Shape.{stands_behind};

use crate::line::{Line, Turn};
use crate::name::Name;
use crate::opened::Opened;
use std::alloc::AllocError;

/// Whether a name is one of these.
pub(crate) fn is_among(client: Name, names: &[Name]) -> bool
    ensures { result ≡ Shape.is_among client names.now }
{
    names
        .iter()
        .any(|name| client.as_bytes() == name.as_bytes())
}

/// Whether a line opens a session.
fn is_open(line: &Line) -> bool
    ensures { result ≡ Shape.is_open line.now }
{
    matches!(line, Line::Open { .. })
}

/// Whether a line opens a session over a link.
fn opens_link(line: &Line) -> bool
    ensures { result ≡ Shape.opens_link line.now }
{
    match line {
        Line::Open { remote } => *remote,
        _ => false,
    }
}

/// Whether a client with a link can't have a line.
fn needs_no_link(line: &Line) -> bool
    ensures { result ≡ Shape.needs_no_link line.now }
{
    match line {
        Line::Delete { .. } => true,
        Line::Pack { collect, .. } => !*collect,
        Line::PackBegin { collect, .. } => !*collect,
        _ => false,
    }
}

/// Whether a turn can stand where these clients have opened their sessions.
pub(crate) fn can_stand(opened: &Opened, turn: &Turn) -> bool
    ensures { result ≡ stands_behind opened.now turn.now }
{
    let has_opened = is_among(turn.client, opened.clients.as_slice());
    if is_open(&turn.line) {
        return !has_opened;
    }
    let is_barred = needs_no_link(&turn.line) && is_among(turn.client, opened.linked.as_slice());
    has_opened && !is_barred
}

/// Puts a turn's client behind those that have opened their sessions, where it opens one.
pub(crate) fn note_open(opened: &mut Opened, turn: &Turn) -> Result<(), AllocError>
    ensures { OnOk result (opened.new ≡ with_opener opened.old turn.now) }
{
    if is_open(&turn.line) {
        opened.clients.push(turn.client)?;
    }
    if opens_link(&turn.line) {
        opened.linked.push(turn.client)?;
    }
    Ok(())
}
