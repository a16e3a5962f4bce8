//! The setters of the lanes that one worker sets.
ghost use Rattle.std.specs.Prelude.{◌≡◌, ◌<◌, ◌≤◌, ◌+◌, ◌^◌, ◌%◌, ◌++◌, ◌∷◌, [], get_or, length, vec_capacity, vec_len, IfSome, OnOk, MatchOption};
ghost use Rattle.std.specs.List.{AllZip};
ghost use Rattle.lanes.specs.Ends.{SameSetter};
ghost use Rattle.batch.specs.Workers.{CanTake, HasOneMore, HaveMore};

use crate::threads::progress::Progress;
use crate::threads::signals::Signals;
use lanes::{Making, Setter, Turn};
use run_plan::OutOfMemory;
use std::alloc::{AllocError, Global};
use std::marker::Model;

/// A setter, and the number of its lane.
#[derive(Drop)]
struct LaneSetter<T> {
    lane: usize,
    setter: T,
}

impl<T> Model for LaneSetter<T> {
    ghost Value = { T };

    ghost view = { λ s. s.setter };
}

/// A worker: the setters, of type `T`, of the lanes that one thread sets.
#[derive(Drop)]
pub(crate) struct Worker<T> {
    setters: Vec<LaneSetter<T>>,
}

impl<T> Model for Worker<T> {
    ghost use Rattle.std.specs.Prelude.{List};

    ghost Value = { List T };

    ghost view = { λ h. h.setters.items };
}

/// Makes one turn of a setter. If an allocation fails in it, abandons the lane.
fn turn<M: Making>(setter: &mut Setter<M>) -> Turn
    ensures { SameSetter setter.old setter.new }
{
    match setter.turn() {
        Ok(turn) => turn,
        Err(OutOfMemory) => {
            setter.give_up();
            Turn::Moved
        }
    }
}

/// Makes turns of a setter, up to one that doesn't move, and at most `most`.
fn take_turns<M: Making>(setter: &mut Setter<M>, most: usize) -> Progress
    ensures { SameSetter setter.old setter.new }
{
    for moves in 0..most {
        match turn(setter) {
            Turn::Moved => (),
            _ if moves > 0 => return Progress::Made,
            Turn::Done => return Progress::Done,
            Turn::Idle | Turn::Blocked => return Progress::None,
        }
    }
    Progress::Made
}

impl<T: Drop> LaneSetter<T> {
    fn new(lane: usize, setter: T) -> Self
        ensures { result ≡ setter }
    {
        LaneSetter { lane, setter }
    }

    fn lane(&self) -> usize {
        self.lane
    }

    fn into_setter(self) -> T
        ensures { result ≡ self }
    {
        self.setter
    }
}

/// Makes turns of the setter of a lane, as `take_turns` does.
fn visit<M: Making>(lane: &mut LaneSetter<Setter<M>>, most: usize) -> Progress
    ensures { SameSetter lane.old lane.new }
{
    take_turns(&mut lane.setter, most)
}

impl<T: Drop> Worker<T> {
    pub fn new(alloc: Global) -> Self
        ensures { result ≡ [] }
    {
        Worker {
            setters: Vec::new(alloc),
        }
    }

    fn push(&mut self, lane: usize, setter: T) -> Result<(), AllocError>
        ensures { OnOk result (self.new ≡ self.old ++ setter ∷ []) }
    {
        self.setters.push(LaneSetter::new(lane, setter))?;
        Ok(())
    }

    fn pop(&mut self) -> Option<T>
        ensures { MatchOption result (self.old ≡ []) (λ setter. self.old ≡ self.new ++ setter ∷ []) }
    {
        let last = self.setters.pop()?;
        Some(last.into_setter())
    }
}

/// Gives turns to all lanes of a worker, lane by lane. Returns `Done` if nothing is left to do in any lane,
/// or if the batch is stopped, which is checked before the turns of each lane.
pub(crate) fn go_round<M: Making>(worker: &mut Worker<Setter<M>>, signals: &Signals) -> Progress
    ensures { AllZip SameSetter worker.old worker.new }
{
    let mut all = Progress::Done;
    for i in 0..worker.setters.len() {
        if signals.is_stopped() {
            return Progress::Done;
        }
        match visit(&mut worker.setters[i], signals.moves_per_visit()) {
            Progress::Done => (),
            Progress::Made => {
                signals.lines_set(worker.setters[i].lane());
                all = Progress::Made;
            }
            Progress::None if all == Progress::Done => all = Progress::None,
            Progress::None => (),
        }
    }
    all
}

/// Appends the setter of a lane to those of its worker: lane i belongs to worker i mod n, where n is the
/// number of workers. Returns `None` if an allocation fails, or if there is no worker.
fn give<T: Drop>(workers: &mut Vec<Worker<T>>, number: usize, setter: T) -> Option<()>
    ensures { IfSome result (λ _. HasOneMore (number % length workers.old.items) setter
        workers.old.items workers.new.items) }
{
    if workers.is_empty() {
        return None;
    }
    let worker = number % workers.len();
    workers[worker].push(number, setter).ok()
}

/// Gives setters to the workers, the last one first. The first setter belongs to the lane with this number,
/// and each later one to the next lane. Returns `None` if an allocation fails, or if there is no worker.
pub(crate) fn give_all<T: Drop>(
    workers: &mut Vec<Worker<T>>,
    first: usize,
    setters: &mut Vec<T>,
) -> Option<()>
    ensures given { IfSome result (λ _. HaveMore first setters.old.items
        workers.old.items workers.new.items) }
    ensures empty { IfSome result (λ _. setters.new.items ≡ []) }
    ensures room { vec_len setters.old ≤ vec_capacity setters.new }
{
    'lanes: while let Some(setter) = setters.pop() {
        give(workers, first.checked_add(setters.len())?, setter)?;
    }
    Some(())
}

/// Removes and returns the last setter of the worker of a lane, or returns `None` if this worker has no
/// setter. For the last lane that was opened and isn't closed yet, it is the setter of this lane.
fn take_back<T: Drop>(workers: &mut Vec<Worker<T>>, number: usize) -> Option<T>
    requires { 0 < vec_len workers.old }
    ensures { MatchOption result
        (get_or workers.old.items (number % length workers.old.items) [] ≡ [])
        (λ setter. HasOneMore (number % length workers.old.items) setter
        workers.new.items workers.old.items) }
{
    let worker = number % workers.len();
    workers[worker].pop()
}

/// Appends a setter. There must be room for it.
fn put<T: Drop>(setters: &mut Vec<T>, setter: T)
    requires { vec_len setters.old < vec_capacity setters.old }
    ensures items { setters.new.items ≡ setters.old.items ++ setter ∷ [] }
    ensures count { vec_len setters.new ≡ vec_len setters.old + 1 }
    ensures room { vec_capacity setters.old ≤ vec_capacity setters.new }
{
    match setters.push(setter) {
        Ok(()) => (),
        Err(_) => unreachable!(),
    }
}

/// Takes the setters of `lanes` lanes back from the workers, that of the lane `first` first, and appends them
/// to an empty list, which must have room for them.
pub(crate) fn take_back_all<T: Drop>(
    workers: &mut Vec<Worker<T>>,
    first: usize,
    lanes: usize,
    setters: &mut Vec<T>,
)
    requires fits { first + lanes < 2 ^ 64 }
    requires empty { setters.old.items ≡ [] }
    requires room { lanes ≤ vec_capacity setters.old }
    requires taken { CanTake first lanes workers.old.items }
    ensures taken { HaveMore first setters.new.items workers.new.items workers.old.items }
    ensures count { length setters.new.items ≡ lanes }
{
    for lane in first..first + lanes {
        let Some(setter) = take_back(workers, lane) else {
            unreachable!()
        };
        put(setters, setter);
    }
}
