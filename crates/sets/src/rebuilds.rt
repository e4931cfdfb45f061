// Rebuilding a missing unit half by half: open, gather, close, or give up.
ghost use Rattle.std.specs.Prelude.{◌≡◌};
ghost use Rattle.sets.specs.Calls.{matches};
ghost use Rattle.sets.specs.Calls.Call.{Open, Gather, Close, GiveUp};
ghost use Rattle.sets.specs.Meaning.{view, opens, gathers, closes, done, returned, giving_up};
ghost use Rattle.sets.specs.Sets.{answer, after, status};

use crate::halves::standing;
use crate::open_rebuild::OpenRebuild;
use crate::refusal::Refusal;
use crate::set::Set;
use crate::ticket::{AnyTicket, FullTicket, Gathered, OpenTicket, Stage, Ticket};
use codes::fetch::{count_standing, fetch_list};
use codes::scheme::Scheme;
use stores::store::UnitStore;
use units::number::UnitNumber;

impl<V: Scheme, S: UnitStore> Set<V, S> {
    // Opens the rebuild of a missing unit.
    pub fn open(&mut self, u: u8) -> Result<OpenTicket, Refusal>
        ensures view { view V.Scheme S.UnitStore self.new ≡ after (view V.Scheme S.UnitStore self.old) (Open u) }
        ensures answer { opens result ≡ answer (view V.Scheme S.UnitStore self.old) (Open u) }
    {
        let unit = UnitNumber::try_from(u)?;
        if self.rebuild.is_some() {
            return Err(Refusal::RebuildOpen);
        }
        if self.store.stands(u) {
            return Err(Refusal::Stands);
        }
        let stood = standing(&self.store);
        if count_standing(&stood) < 10 {
            return Err(Refusal::TooFew);
        }
        let list = fetch_list(self.scheme.version(), &stood, u);
        self.rebuild = Some(OpenRebuild {
            unit,
            stood,
            list,
            count: 0,
        });
        Ok(Ticket::new(u, 0))
    }

    // Fetches the next listed half, and no other.
    pub fn gather(&mut self, t: OpenTicket) -> Result<Gathered, OpenTicket>
        ensures view { view V.Scheme S.UnitStore self.new ≡ after (view V.Scheme S.UnitStore self.old) (Gather t.unit t.count) }
        ensures answer { gathers result ≡ answer (view V.Scheme S.UnitStore self.old) (Gather t.unit t.count) }
        ensures back { returned t result }
    {
        match &mut self.rebuild {
            Some(rebuild) if rebuild.matches(&t) => Ok(rebuild.gather(
                &self.store,
                &mut self.room,
                t,
            )),
            _ => Err(t),
        }
    }

    // Puts the rebuilt unit, ends the rebuild and answers how many halves were gathered.
    pub fn close(&mut self, t: FullTicket) -> Result<u8, FullTicket>
        ensures view { view V.Scheme S.UnitStore self.new ≡ after (view V.Scheme S.UnitStore self.old) (Close t.unit t.count) }
        ensures answer { closes result ≡ answer (view V.Scheme S.UnitStore self.old) (Close t.unit t.count) }
        ensures back { returned t result }
    {
        match &self.rebuild {
            Some(rebuild) if rebuild.matches(&t) => {
                rebuild.put(&self.scheme, &mut self.store, &self.room);
                self.rebuild = None;
                Ok(t.end())
            }
            _ => Err(t),
        }
    }

    // Ends the ticket, and the rebuild if the ticket matches; the unit stays missing.
    pub fn give_up(&mut self, t: AnyTicket) -> Result<(), Refusal>
        ensures view { view V.Scheme S.UnitStore self.new ≡ after (view V.Scheme S.UnitStore self.old) (giving_up t) }
        ensures answer { done result ≡ answer (view V.Scheme S.UnitStore self.old) (giving_up t) }
    {
        match t {
            AnyTicket::Open(t) => self.end(t),
            AnyTicket::Full(t) => self.end(t),
        }
    }

    // The same of a ticket of either kind.
    fn end<K: Stage>(&mut self, t: Ticket<K>) -> Result<(), Refusal>
        ensures view { view V.Scheme S.UnitStore self.new ≡ after (view V.Scheme S.UnitStore self.old) (GiveUp K.kind t.unit t.count) }
        ensures answer { done result ≡ answer (view V.Scheme S.UnitStore self.old) (GiveUp K.kind t.unit t.count) }
    {
        let matched = self.matches(&t);
        t.end();
        if !matched {
            return Err(Refusal::WrongTicket);
        }
        self.rebuild = None; // the unit stays missing
        Ok(())
    }

    // Whether the ticket is that of the open rebuild.
    fn matches<K: Stage>(&self, t: &Ticket<K>) -> bool
        ensures { result ≡ matches (status (view V.Scheme S.UnitStore self.now)) K.kind t.now.unit t.now.count }
    {
        match &self.rebuild {
            Some(rebuild) => rebuild.matches(t),
            None => false,
        }
    }
}
