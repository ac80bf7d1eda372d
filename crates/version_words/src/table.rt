//! The shared table.
ghost use Rattle.std.specs.Prelude.{◌≡◌, ℕ, ◌==◌, false};
ghost use Rattle.machine_states.specs.table_words.specs.declared.access.Access.TheVariants.{Loads, Stores, Exchanges, Raises};
ghost use Rattle.machine_states.specs.table_words.specs.Access.{written};
ghost use Rattle.version_words.specs.Naming.{is_seat};
ghost use Rattle.version_words.specs.TableState.{IsOf};
ghost use Rattle.version_words.specs.Events.{Makes, Tries, Leaves, Commits, IsNamed, IsBlind, event_by, step_at, address_of, start_of, nothing, announcing, seen_seat};

use crate::plays::{self, Named};
use crate::rule::{Setup, Shows};
use crate::view::View;
use atomic_table::{Seat, Table};
use machine_states::body_terms::Thunk;
use machine_states::structure_laws::Structure;
use machine_states::table_words::Spot;
use std::alloc::Global;
use std::marker::Model;

/// The words of the machine, shared by threads.
#[derive(Drop)]
pub struct FlockTable<S: Structure> {
    pub(crate) table: Table<Thunk, View<S>, Setup<S>, Shows<S>, Global>,
    pub(crate) setup: Setup<S>,
}

impl<S: Structure> Model for FlockTable<S> {
    ghost use Rattle.version_words.specs.TableState.{TableState, IsBuilt};

    ghost Value = { TableState S };

    ghost view = { λ a. record {
      table = a.table.shared.table_id;
      structure = a.setup.structure;
      layout = a.setup.layout;
      requests = a.setup.requests.items;
    } };

    ghost invariant = { λ a. IsBuilt (S.meaning a.setup.structure) a.table.shared.table_id a.table.shared.key a.setup };
}

impl<S: Structure> FlockTable<S> {
    /// Where the words of this descriptor begin. The steps on them take it, so that it is worked out once for all of
    /// them.
    #[inline(always)]
    pub fn descriptor_start(&self, descriptor: u32) -> usize
        ensures { result ≡ start_of (S.meaning self.now.structure) self.now descriptor }
    {
        self.setup.sizes.descriptor_at(descriptor)
    }

    /// A load that is the event of this name.
    #[inline(always)]
    pub(crate) fn load<E: Named>(&self, seat: &mut Seat<Thunk, View<S>>, spot: Spot) -> u64
        requires own { IsOf self.now (seen_seat seat.old.table_id seat.old.me) }
        requires named { let m = S.meaning self.now.structure in let r = seen_seat seat.old.table_id seat.old.me in
            IsNamed m E.naming r (step_at m self.now spot 0 0 nothing) (spot, Loads) }
        ensures own { IsOf self.now (seen_seat seat.new.table_id seat.new.me) }
        ensures event { let m = S.meaning self.now.structure in let r = seen_seat seat.old.table_id seat.old.me in
            Makes m (event_by m E.naming r (step_at m self.now spot 0 0 nothing)) result r
            (seen_seat seat.new.table_id seat.new.me) }
        ensures slots { seat.new.me.1 ≡ seat.old.me.1 }
    {
        let at = self.setup.sizes.address(spot);
        self.load_at::<E>(seat, spot, at)
    }

    /// The same, of a word whose address is known.
    #[inline(always)]
    pub(crate) fn load_at<E: Named>(
        &self,
        seat: &mut Seat<Thunk, View<S>>,
        spot: Spot,
        at: usize,
    ) -> u64
        requires own { IsOf self.now (seen_seat seat.old.table_id seat.old.me) }
        requires named { let m = S.meaning self.now.structure in let r = seen_seat seat.old.table_id seat.old.me in
            IsNamed m E.naming r (step_at m self.now spot 0 0 nothing) (spot, Loads) }
        requires at { at ≡ address_of (S.meaning self.now.structure) self.now spot }
        ensures own { IsOf self.now (seen_seat seat.new.table_id seat.new.me) }
        ensures event { let m = S.meaning self.now.structure in let r = seen_seat seat.old.table_id seat.old.me in
            Makes m (event_by m E.naming r (step_at m self.now spot 0 0 nothing)) result r
            (seen_seat seat.new.table_id seat.new.me) }
        ensures slots { seat.new.me.1 ≡ seat.old.me.1 }
    {
        let _ = spot;
        let _ = &self.setup;
        self.table.shared.load::<plays::Makes<S, E>>(seat, at)
    }

    /// A store that is the event of this name.
    #[inline(always)]
    pub(crate) fn store<E: Named>(&self, seat: &mut Seat<Thunk, View<S>>, spot: Spot, number: u64)
        requires own { IsOf self.now (seen_seat seat.old.table_id seat.old.me) }
        requires named { let m = S.meaning self.now.structure in let r = seen_seat seat.old.table_id seat.old.me in
            IsNamed m E.naming r (step_at m self.now spot number 0 nothing) (spot, Stores number) }
        requires apart { is_seat spot ≡ false }
        requires blind { let m = S.meaning self.now.structure in let r = seen_seat seat.old.table_id seat.old.me in
            IsBlind m (event_by m E.naming r (step_at m self.now spot number 0 nothing)) (spot, Stores number) r }
        ensures own { IsOf self.now (seen_seat seat.new.table_id seat.new.me) }
        ensures event { let m = S.meaning self.now.structure in let r = seen_seat seat.old.table_id seat.old.me in
            (found : ℕ) → Makes m (event_by m E.naming r (step_at m self.now spot number 0 nothing)) found r
            (seen_seat seat.new.table_id seat.new.me) }
        ensures slots { seat.new.me.1 ≡ seat.old.me.1 }
    {
        let at = self.setup.sizes.address(spot);
        self.store_at::<E>(seat, spot, at, number);
    }

    /// The same, to a word whose address is known.
    #[inline(always)]
    pub(crate) fn store_at<E: Named>(
        &self,
        seat: &mut Seat<Thunk, View<S>>,
        spot: Spot,
        at: usize,
        number: u64,
    )
        requires own { IsOf self.now (seen_seat seat.old.table_id seat.old.me) }
        requires named { let m = S.meaning self.now.structure in let r = seen_seat seat.old.table_id seat.old.me in
            IsNamed m E.naming r (step_at m self.now spot number 0 nothing) (spot, Stores number) }
        requires apart { is_seat spot ≡ false }
        requires blind { let m = S.meaning self.now.structure in let r = seen_seat seat.old.table_id seat.old.me in
            IsBlind m (event_by m E.naming r (step_at m self.now spot number 0 nothing)) (spot, Stores number) r }
        requires at { at ≡ address_of (S.meaning self.now.structure) self.now spot }
        ensures own { IsOf self.now (seen_seat seat.new.table_id seat.new.me) }
        ensures event { let m = S.meaning self.now.structure in let r = seen_seat seat.old.table_id seat.old.me in
            (found : ℕ) → Makes m (event_by m E.naming r (step_at m self.now spot number 0 nothing)) found r
            (seen_seat seat.new.table_id seat.new.me) }
        ensures slots { seat.new.me.1 ≡ seat.old.me.1 }
    {
        let _ = spot;
        let _ = &self.setup;
        self.table
            .shared
            .store::<plays::Makes<S, E>>(seat, at, number)
    }

    /// An exchange that is the event of this name.
    pub(crate) fn exchange<E: Named>(
        &self,
        seat: &mut Seat<Thunk, View<S>>,
        spot: Spot,
        old: u64,
        new: u64,
    ) -> u64
        requires own { IsOf self.now (seen_seat seat.old.table_id seat.old.me) }
        requires named { let m = S.meaning self.now.structure in let r = seen_seat seat.old.table_id seat.old.me in
            IsNamed m E.naming r (step_at m self.now spot old new nothing) (spot, Exchanges old new) }
        requires apart { is_seat spot ≡ false }
        ensures own { IsOf self.now (seen_seat seat.new.table_id seat.new.me) }
        ensures event { let m = S.meaning self.now.structure in let r = seen_seat seat.old.table_id seat.old.me in
            Makes m (event_by m E.naming r (step_at m self.now spot old new nothing)) result r
            (seen_seat seat.new.table_id seat.new.me) }
        ensures tries { let m = S.meaning self.now.structure in let r = seen_seat seat.old.table_id seat.old.me in
            Tries m (event_by m E.naming r (step_at m self.now spot old new nothing)) (result == old) r
            (seen_seat seat.new.table_id seat.new.me) }
        ensures commits { let m = S.meaning self.now.structure in let r = seen_seat seat.old.table_id seat.old.me in
            Commits m (event_by m E.naming r (step_at m self.now spot old new nothing))
            (written (Exchanges old new) result) (result == old) r
            (seen_seat seat.new.table_id seat.new.me) }
        ensures leaves { let m = S.meaning self.now.structure in let r = seen_seat seat.old.table_id seat.old.me in
            Leaves m (event_by m E.naming r (step_at m self.now spot old new nothing))
            (written (Exchanges old new) result) r
            (seen_seat seat.new.table_id seat.new.me) }
        ensures slots { seat.new.me.1 ≡ seat.old.me.1 }
    {
        let at = self.setup.sizes.address(spot);
        self.table
            .shared
            .compare_exchange::<plays::Makes<S, E>>(seat, at, old, new)
    }

    /// An exchange that is the event of this name, and that announces this thunk.
    pub(crate) fn exchange_with<E: Named>(
        &self,
        seat: &mut Seat<Thunk, View<S>>,
        spot: Spot,
        old: u64,
        new: u64,
        said: &Thunk,
    ) -> u64
        requires own { IsOf self.now (seen_seat seat.old.table_id seat.old.me) }
        requires named { let m = S.meaning self.now.structure in let r = seen_seat seat.old.table_id seat.old.me in
            IsNamed m E.naming r (step_at m self.now spot old new (announcing said.now)) (spot, Exchanges old new) }
        requires apart { is_seat spot ≡ false }
        ensures own { IsOf self.now (seen_seat seat.new.table_id seat.new.me) }
        ensures event { let m = S.meaning self.now.structure in let r = seen_seat seat.old.table_id seat.old.me in
            Makes m (event_by m E.naming r (step_at m self.now spot old new (announcing said.now))) result r
            (seen_seat seat.new.table_id seat.new.me) }
        ensures slots { seat.new.me.1 ≡ seat.old.me.1 }
    {
        let at = self.setup.sizes.address(spot);
        self.table
            .shared
            .compare_exchange_with::<plays::Makes<S, E>>(seat, at, old, new, said)
    }

    /// A fetch_max that is the event of this name.
    pub(crate) fn raise<E: Named>(
        &self,
        seat: &mut Seat<Thunk, View<S>>,
        spot: Spot,
        number: u64,
    ) -> u64
        requires own { IsOf self.now (seen_seat seat.old.table_id seat.old.me) }
        requires named { let m = S.meaning self.now.structure in let r = seen_seat seat.old.table_id seat.old.me in
            IsNamed m E.naming r (step_at m self.now spot number 0 nothing) (spot, Raises number) }
        requires apart { is_seat spot ≡ false }
        ensures own { IsOf self.now (seen_seat seat.new.table_id seat.new.me) }
        ensures event { let m = S.meaning self.now.structure in let r = seen_seat seat.old.table_id seat.old.me in
            Makes m (event_by m E.naming r (step_at m self.now spot number 0 nothing)) result r
            (seen_seat seat.new.table_id seat.new.me) }
        ensures slots { seat.new.me.1 ≡ seat.old.me.1 }
    {
        let at = self.setup.sizes.address(spot);
        self.table
            .shared
            .fetch_max::<plays::Makes<S, E>>(seat, at, number)
    }
}
