//! The carrier.

ghost use Rattle.std.specs.Prelude.{◌≡◌, ◌<◌, Err, IfErr, IfOk, OnErr, OnOk, false, true, length};
ghost use Rattle.hub_carrier.specs.declared.trouble.Trouble.{Trouble};
ghost use Rattle.hub_carrier.specs.Ends.{StepsThere, end_at};
ghost use Rattle.hub_carrier.specs.Later.{IsLaterEnd};
ghost use Rattle.hub_carrier.specs.Served.{HasCarried, HasCounted, IsEndOrMemory};

use crate::cutting::payloads_of;
use crate::serving::serve_messages;
use crate::trouble::Trouble;
use remote_loads::Carrier;
use std::alloc::Global;
use zb_ids::Text8;
use zb_model::{Refs, Resolver, Store};
use zb_outside::Clock;
use zeo_client::ClientError;
use zeo_desk::Desk;
use zodb_core::Hub;

/// A hub, the number of a session, its desk, and the clock: the way to that desk and back, for one turn. All that the
/// desk sends for what is carried to it comes at once.
///
/// Its stream ends where nothing comes, and where frames are lost: a piece isn't whole frames or has 2^32 bytes or
/// more, a payload is no message of a client, one names a step of a pack where none may be made, messages are answered
/// by nothing, or memory is wanting once the desk was handed some.
#[derive(Drop)]
pub struct HubCarrier<'h, 'd, 'c, St: Store, R: Resolver, F: Refs, C: Clock> {
    /// The hub.
    pub hub: &'h mut Hub<St, R, F>,
    /// The number of the session.
    pub session: u32,
    /// The desk of the session.
    pub desk: &'d mut Desk,
    /// The clock, which votes and undos read.
    pub clock: &'c mut C,
    /// Whether steps of a pack may be made.
    pub packs: bool,
    /// Whether the stream of what comes has ended.
    pub ended: bool,
    /// What went wrong in the steps that were made.
    pub trouble: Trouble,
    /// How many pieces were carried to the desk and answered, from 0 to 2^64-1, where the count stays.
    pub pieces: u64,
    /// How many bytes were carried to the desk and answered, from 0 to 2^64-1, where the count stays.
    pub sent: u64,
    /// How many bytes came for them, from 0 to 2^64-1, where the count stays.
    pub came: u64,
}

impl<'h, 'd, 'c, St: Store, R: Resolver, F: Refs, C: Clock> HubCarrier<'h, 'd, 'c, St, R, F, C> {
    /// A carrier over these parts, which are given back as it leaves them. It has carried nothing yet.
    pub fn new(
        hub: &'h mut Hub<St, R, F>,
        session: u32,
        desk: &'d mut Desk,
        clock: &'c mut C,
        packs: bool,
    ) -> HubCarrier<'h, 'd, 'c, St, R, F, C>
        ensures hub { result.hub.now ≡ hub.old }
        ensures hub_place { result.hub.ghost_name ≡ hub.entry.ghost_name }
        ensures session { result.session ≡ session }
        ensures desk { result.desk.now ≡ desk.old }
        ensures desk_place { result.desk.ghost_name ≡ desk.entry.ghost_name }
        ensures clock { result.clock.now ≡ clock.old }
        ensures clock_place { result.clock.ghost_name ≡ clock.entry.ghost_name }
        ensures packs { result.packs ≡ packs }
        ensures ended { result.ended ≡ false }
        ensures trouble { result.trouble ≡ Trouble.NoFault }
        ensures counts { (result.pieces ≡ 0) × (result.sent ≡ 0) × (result.came ≡ 0) }
    {
        HubCarrier {
            hub,
            session,
            desk,
            clock,
            packs,
            ended: false,
            trouble: Trouble::NoFault,
            pieces: 0,
            sent: 0,
            came: 0,
        }
    }

    /// Hands the payloads of a piece to the desk, makes the steps that their messages name, and gives the bytes that
    /// the desk sends for them, of which there is at least one.
    ///
    /// `Closed` comes only where the stream has ended, `Memory` where there was none. With an error nothing was done,
    /// unless the stream has ended with it.
    #[tactic(auto, using(crate::proofs::Serves::piece_kept, crate::proofs::Serves::piece_broken, crate::proofs::Serves::piece_lost, crate::proofs::Serves::piece_carried, crate::proofs::Later::kept_later, crate::proofs::Later::front_later, crate::proofs::Later::sent_later))]
    pub fn exchange(&mut self, alloc: Global, piece: &[u8]) -> Result<Text8, ClientError>
        ensures some { IfOk result (λ given. 0 < length given) }
        ensures carried { HasCarried
            (StepsThere St.told St.lasts St.stands R.rules F.named self.old.session)
            (end_at self.old.hub.now (C.stamps self.old.clock.now) self.old.packs self.old.trouble)
            self.old.desk.now piece.now
            (end_at self.new.hub.now (C.stamps self.new.clock.now) self.new.packs self.new.trouble)
            self.new.desk.now result }
        ensures later { IsLaterEnd St.lasts
            (end_at self.old.hub.now (C.stamps self.old.clock.now) self.old.packs self.old.trouble)
            (end_at self.new.hub.now (C.stamps self.new.clock.now) self.new.packs self.new.trouble) }
        ensures counted { HasCounted (self.old.pieces, self.old.sent, self.old.came) piece.now result
            (self.new.pieces, self.new.sent, self.new.came) }
        ensures ended { self.old.ended ≡ true → result ≡ Err ClientError.Closed }
        ensures undone { OnErr result (self.new.ended ≡ self.old.ended
            → (self.new.hub.now ≡ self.old.hub.now) × (self.new.desk.now ≡ self.old.desk.now)
            × (C.stamps self.new.clock.now ≡ C.stamps self.old.clock.now)
            × (self.new.trouble ≡ self.old.trouble)) }
        ensures cause { IfErr result (λ error. (error ≡ ClientError.Closed → self.new.ended ≡ true)
            × IsEndOrMemory error) }
        ensures goes_on { OnOk result (self.new.ended ≡ false) }
        ensures session { self.new.session ≡ self.old.session }
        ensures places { (self.new.hub.ghost_name ≡ self.old.hub.ghost_name)
            × (self.new.desk.ghost_name ≡ self.old.desk.ghost_name)
            × (self.new.clock.ghost_name ≡ self.old.clock.ghost_name) }
    {
        if self.ended {
            return Err(ClientError::Closed);
        }
        let payloads = match payloads_of(alloc, piece) {
            Ok(payloads) => payloads,
            Err(error) => {
                self.ended = matches!(error, ClientError::Closed);
                return Err(error);
            }
        };
        self.ended = true;
        let mut text = Vec::new(alloc);
        match serve_messages(
            alloc,
            self.hub,
            self.clock,
            self.session,
            self.packs,
            &mut self.trouble,
            self.desk,
            payloads,
            &mut text,
        ) {
            Ok(()) => {}
            Err(error) => return Err(error),
        }
        if text.is_empty() {
            return Err(ClientError::Closed);
        }
        self.ended = false;
        self.pieces = self.pieces.saturating_add(1);
        self.sent = self.sent.saturating_add(piece.len() as u64);
        self.came = self.came.saturating_add(text.len() as u64);
        Ok(Text8::from_vec(text))
    }
}

impl<'h, 'd, 'c, St: Store, R: Resolver, F: Refs, C: Clock> Carrier
    for HubCarrier<'h, 'd, 'c, St, R, F, C> {
    ghost use Rattle.std.specs.Prelude.{ℕ};
    ghost use Rattle.std.specs.Borrow.{GName};
    ghost use Rattle.hub_carrier.specs.Ends.{HubEnd, StepsThere, end_at, machine_at};
    ghost use Rattle.hub_carrier.specs.EndLaws.{step_is_machines};
    ghost use Rattle.hub_carrier.specs.Later.{IsLaterEnd};
    ghost use Rattle.hub_carrier.specs.LaterLaws.{at_once, later_on};

    ghost faults = { λ c. 0 };

    ghost closed = { λ c. c.ended };

    ghost told = { St.told };

    ghost End = { HubEnd R F };

    ghost end = { λ c. end_at c.hub.now (C.stamps c.clock.now) c.packs c.trouble };

    ghost desk = { λ c. c.desk.now };

    ghost session = { λ c. c.session };

    ghost machine = { λ e. machine_at e.hub };

    ghost steps = { λ n q r before after. StepsThere St.told St.lasts St.stands R.rules F.named n q r before after };

    ghost Place = { GName × GName × GName };

    ghost place = { λ c. (c.hub.ghost_name, c.desk.ghost_name, c.clock.ghost_name) };

    ghost later = { λ a b. IsLaterEnd St.lasts (end_at a.hub.now (C.stamps a.clock.now) a.packs a.trouble)
        (end_at b.hub.now (C.stamps b.clock.now) b.packs b.trouble) };

    ghost stepped = { λ n q r before after told step. step_is_machines St.told St.lasts St.stands R.rules F.named n q r before after told step };

    ghost at_once = { λ c. at_once St.lasts (end_at c.hub.now (C.stamps c.clock.now) c.packs c.trouble) };

    ghost later_on = { λ a b c before behind. later_on St.lasts (end_at a.hub.now (C.stamps a.clock.now) a.packs a.trouble)
        (end_at b.hub.now (C.stamps b.clock.now) b.packs b.trouble)
        (end_at c.hub.now (C.stamps c.clock.now) c.packs c.trouble) before behind };

    fn carry(&mut self, alloc: Global, bytes: &[u8]) -> Result<Text8, ClientError> {
        self.exchange(alloc, bytes)
    }
}
