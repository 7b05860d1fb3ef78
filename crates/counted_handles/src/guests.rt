//! Calls of a reader, or of the publisher, on an owner that it takes in: clones, upgrades, looks and notes. The owner goes off again at
//! the call's end.
ghost use Rattle.std.specs.Prelude.{◌≡◌, ◌<◌, [], None, IfOk, IfErr};
ghost use Rattle.cell_core.specs.Words.{slots, notes};
ghost use Rattle.counted_handles.specs.declared.view.Mark.{Mark};
ghost use Rattle.counted_handles.specs.declared.view.Tie.{Tie};
ghost use Rattle.counted_handles.specs.declared.view.Reading.{Reading};
ghost use Rattle.counted_handles.specs.declared.view.Publishing.{Publishing};
ghost use Rattle.counted_handles.specs.declared.view.View.TheVariants.{Publishes, Reads, Has, HasWeakly};
ghost use Rattle.counted_handles.specs.Calls.{Fits, IsGuest, IsWhole, IsCloned, IsFound, IsLifted, IsNoted, sunk_by};

use crate::calls::{DEAD, Words};
use crate::names::Names;
use crate::plays;
use crate::rule::Room;
use crate::view::View;
use atomic_table::Seat;

// A raise for an owner: the seats of another owner of its version, and of itself. The reader has a grant less.
pub(crate) fn clone_share<T, C: Names<T>>(
    words: &Words<T, C>,
    seat: &mut Seat<Room<T>, View<T>>,
    owner: Seat<Room<T>, View<T>>,
    slot: usize,
) -> (Seat<Room<T>, View<T>>, Seat<Room<T>, View<T>>)
    requires fits { Fits words.now.table_id × (seat.old.table_id ≡ words.now.table_id) × (owner.table_id ≡ words.now.table_id) × (slot < slots) }
    requires has { (r : Reading T) × (mark : Mark T) × IsGuest r seat.old.me × (owner.me ≡ (Has mark, [])) × (mark.slot ≡ slot) }
    ensures seats { (seat.new.table_id ≡ seat.old.table_id) × (seat.new.id ≡ seat.old.id) × (result.0.table_id ≡ seat.old.table_id) × (result.1.table_id ≡ seat.old.table_id) }
    ensures cloned { (r : Reading T) (mark : Mark T) → IsGuest r seat.old.me → owner.me ≡ (Has mark, []) → IsCloned r mark seat.new.me result.0.me result.1.me }
{
    words.join_seat::<plays::Receives>(seat, owner);
    words.fetch_add::<plays::Raises>(seat, slot + slot + 1, 1);
    let share = words.split_seat::<plays::Gains>(seat);
    let owner = words.split_seat::<plays::Departs>(seat);
    (share, owner)
}

// A look at S of an owner's slot: the owner's seat. Its version isn't one of those that the reader has seen buried.
pub(crate) fn find<T, C: Names<T>>(
    words: &Words<T, C>,
    seat: &mut Seat<Room<T>, View<T>>,
    owner: Seat<Room<T>, View<T>>,
    slot: usize,
) -> Seat<Room<T>, View<T>>
    requires fits { Fits words.now.table_id × (seat.old.table_id ≡ words.now.table_id) × (owner.table_id ≡ words.now.table_id) × (slot < slots) }
    requires has { (r : Reading T) × (mark : Mark T) × IsWhole r seat.old.me × (owner.me ≡ (Has mark, [])) × (mark.slot ≡ slot) }
    ensures seats { (seat.new.table_id ≡ seat.old.table_id) × (seat.new.id ≡ seat.old.id) × (result.table_id ≡ seat.old.table_id) }
    ensures found { (r : Reading T) (mark : Mark T) → IsWhole r seat.old.me → owner.me ≡ (Has mark, []) → IsFound r mark seat.new.me result.me }
{
    words.join_seat::<plays::Receives>(seat, owner);
    words.load::<plays::Sees>(seat, slot + slot + 1);
    words.split_seat::<plays::Departs>(seat)
}

// An upgrade's acts: the seat of a share of the weak owner's version, and the weak owner's own. Where S is DEAD or more there is no
// share, and it is told whether a grant was spent on a raise.
pub(crate) fn lift<T, C: Names<T>>(
    words: &Words<T, C>,
    seat: &mut Seat<Room<T>, View<T>>,
    weak: Seat<Room<T>, View<T>>,
    slot: usize,
) -> (Result<Seat<Room<T>, View<T>>, bool>, Seat<Room<T>, View<T>>)
    requires fits { Fits words.now.table_id × (seat.old.table_id ≡ words.now.table_id) × (weak.table_id ≡ words.now.table_id) × (slot < slots) }
    requires has { (r : Reading T) × (tie : Tie T) × IsGuest r seat.old.me × (weak.me ≡ (HasWeakly tie, [])) × (tie.slot ≡ slot) }
    ensures seats { (seat.new.table_id ≡ seat.old.table_id) × (seat.new.id ≡ seat.old.id) × (result.1.table_id ≡ seat.old.table_id) }
    ensures share { IfOk result.0 (λ share. share.table_id ≡ seat.old.table_id) }
    ensures weak { (tie : Tie T) → weak.me ≡ (HasWeakly tie, []) → result.1.me ≡ (HasWeakly tie, []) }
    ensures lifted { IfOk result.0 (λ share. (r : Reading T) (tie : Tie T) → IsGuest r seat.old.me → weak.me ≡ (HasWeakly tie, []) → IsLifted r tie seat.new.me share.me) }
    ensures buried { IfErr result.0 (λ raised. (r : Reading T) (tie : Tie T) → IsGuest r seat.old.me → weak.me ≡ (HasWeakly tie, []) → seat.new.me ≡ (Reads (sunk_by r tie.number raised), [])) }
{
    words.join_seat::<plays::Receives>(seat, weak);
    if words.load::<plays::Sees>(seat, slot + slot + 1) >= DEAD {
        let weak = words.split_seat::<plays::Departs>(seat);
        return (Err(false), weak);
    }
    if words.fetch_add::<plays::Raises>(seat, slot + slot + 1, 1) >= DEAD {
        let weak = words.split_seat::<plays::Departs>(seat);
        return (Err(true), weak);
    }
    let share = words.split_seat::<plays::Gains>(seat);
    let weak = words.split_seat::<plays::Departs>(seat);
    (Ok(share), weak)
}

// A note for an owner: its seat, and that of a weak owner of its version.
pub(crate) fn note<T, C: Names<T>>(
    words: &Words<T, C>,
    seat: &mut Seat<Room<T>, View<T>>,
    owner: Seat<Room<T>, View<T>>,
    slot: usize,
) -> (Seat<Room<T>, View<T>>, Seat<Room<T>, View<T>>)
    requires fits { Fits words.now.table_id × (seat.old.table_id ≡ words.now.table_id) × (seat.old.id ≡ 0) × (owner.table_id ≡ words.now.table_id) × (slot < slots) }
    requires has { (p : Publishing T) × (mark : Mark T) × (seat.old.me ≡ (Publishes p, [])) × (p.share ≡ None) × (p.noted < notes) × (owner.me ≡ (Has mark, [])) × (mark.slot ≡ slot) }
    ensures seats { (seat.new.table_id ≡ seat.old.table_id) × (seat.new.id ≡ seat.old.id) × (result.0.table_id ≡ seat.old.table_id) × (result.1.table_id ≡ seat.old.table_id) }
    ensures noted { (p : Publishing T) (mark : Mark T) → seat.old.me ≡ (Publishes p, []) → p.share ≡ None → owner.me ≡ (Has mark, []) → IsNoted p mark seat.new.me result.0.me result.1.me }
{
    words.join_seat::<plays::Borrows>(seat, owner);
    words.fetch_add::<plays::Notes>(seat, slot + slot + 2, 1);
    let weak = words.split_seat::<plays::Unties>(seat);
    let owner = words.split_seat::<plays::Shares>(seat);
    (owner, weak)
}
