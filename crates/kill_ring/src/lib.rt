// The kill ring: kill_ring.rs over two lent buffers. The ring's record goes in by value and comes back.
#![tactic(auto)]

ghost use Rattle.std.specs.Prelude.{◌≡◌, false, not, cond, ◌+◌, ◌-◌, ◌*◌, ◌≤◌, ◌<◌, eqb, length, take, drop, IfOk};
ghost use Rattle.std.specs.Option.{is_none};
ghost use Rattle.std.specs.Result.{result_ok};
ghost use Rattle.repertoire.specs.Repertoire.{catalogue};
ghost use Rattle.repertoire.specs.Text.{is_text};
ghost use Rattle.checks.specs.Outcome.{refused};
ghost use Rattle.checks.specs.Refused.{number_of, refused_by};
ghost use Rattle.buffer.specs.Edit.{inserted};
ghost use Rattle.kill_ring.specs.Ring.{reset_out, kill_out, yank_out, yank_pop_out};
ghost use Rattle.kill_ring.specs.Calls.{lent, len_at, slot_bytes, slots_from, value_of, action_of, action_number, yank_size, mode_of};
ghost use Rattle.kill_ring.specs.Calls.{any_over, in_use, over_sizes, index_breaks, action_breaks, any_foreign, damaged, checked};
ghost use Rattle.kill_ring.specs.Calls.{says as Calls·says, answer_and_ring, Ringed};
ghost use Rattle.kill_ring.specs.Calls.{new_call, reset_call, yank_call, yank_pop_call, kill_call};
ghost use Rattle.kill_ring.specs.Killed.{place_of, slot_of, used_of, killed_into, Put};

use buffer::insert_bytes;
use checks::Refused;
use numbers::{read_num, write_num};
use repertoire::check_text;

// Document 01, "Log and ring": the most slots of a ring, and the bytes that each has.
const MOST_SLOTS: usize = 16;

pub const SLOT_BYTES: usize = 4096;

// What a ring's record says: the most slots that there may be, those in use, where we are among them, the last action (0 kill,
// 1 yank, 2 other) and the yank's size.
#[repr(C)]
#[derive(Clone, Copy, PartialEq)]
pub struct Ring {
    pub size: usize,
    pub count: usize,
    pub index: usize,
    pub action: usize,
    pub yanked: usize,
}

// The number as in a LineAnswer; a slot, and a size. C reads it.
#[repr(C)]
#[derive(Clone, Copy)]
pub struct RingAnswer {
    pub number: u32,
    pub slot: usize,
    pub size: usize,
}

// A call's answer, and the ring's record afterwards.
#[derive(Clone, Copy)]
pub struct AnswerAndRing {
    pub answer: RingAnswer,
    pub ring: Ring,
}

// The last action.
#[derive(Clone, Copy)]
pub enum Action {
    Kill,
    Yank(usize),
    Other,
}

// The direction of a kill.
#[derive(Clone, Copy)]
pub enum Mode {
    Append,
    Prepend,
}

// A number that names no direction.
#[derive(Clone, Copy)]
pub struct UnknownMode;

impl TryFrom<u32> for Mode {
    type Error = UnknownMode;

    ghost try_from_gives = { λ code r. result_ok r ≡ mode_of code };

    #[tactic(auto, using(std::proofs::lemmas::Option::slice_get_past), unfolding(crate::specs::Calls::mode_list))]
    fn try_from(code: u32) -> Result<Mode, UnknownMode> {
        match code {
            0 => Ok(Mode::Append),
            1 => Ok(Mode::Prepend),
            _ => Err(UnknownMode),
        }
    }
}

impl Mode {
    // Where a kill goes into what a slot holds: behind it, or in front of it.
    fn place(self, used: usize) -> usize
        ensures { result ≡ place_of self used }
    {
        match self {
            Mode::Append => used,
            Mode::Prepend => 0,
        }
    }
}

impl Ring {
    // The last action by its number and the yank's size: a number that is none counts as other.
    pub fn last_action(self) -> Action
        ensures { result ≡ action_of self.action self.yanked }
    {
        match self.action {
            0 => Action::Kill,
            1 => Action::Yank(self.yanked),
            _ => Action::Other,
        }
    }

    // The ring after an action.
    fn with_action(self, action: Action) -> Ring
        ensures { result ≡ record
            { size = self.size; count = self.count; index = self.index; action = action_number action; yanked = yank_size action } }
    {
        let (action, yanked) = match action {
            Action::Kill => (0, 0),
            Action::Yank(size) => (1, size),
            Action::Other => (2, 0),
        };
        Ring {
            action,
            yanked,
            ..self
        }
    }

    // The slots in use, as far as there are any.
    fn in_use(self) -> usize
        ensures { result ≡ in_use self }
    {
        self.count.min(self.size)
    }
}

// The used length of a slot.
fn slot_len(lens: &[u8], i: usize) -> usize
    requires { 2 * i + 2 ≤ length lens.now }
    ensures { (result ≡ len_at lens.now i) × (result < 4294967296) }
{
    read_num(lens, 2 * i, 2)
}

// Is one of the first n slots' lengths over 4,096?
fn any_over(lens: &[u8], n: usize) -> bool
    requires { 2 * n ≤ length lens.now }
    ensures { result ≡ any_over lens.now 0 n }
{
    (0..n).any(|i| SLOT_BYTES < slot_len(lens, i))
}

// Check 2 of a lent ring.
#[tactic(auto, unfolding(crate::specs::Calls::over_sizes))]
fn over_sizes(slots: &[u8], lens: &[u8], ring: Ring) -> bool
    ensures { result ≡ over_sizes (lent slots.now lens.now ring) }
{
    MOST_SLOTS < ring.size
        || slots.len() < SLOT_BYTES * ring.size
        || lens.len() < 2 * ring.size
        || any_over(lens, ring.in_use())
}

// An index not below the count, or not 0 where there are no slots.
fn index_breaks(ring: Ring) -> bool
    ensures { result ≡ index_breaks ring }
{
    if ring.count == 0 {
        ring.index != 0
    } else {
        ring.count <= ring.index
    }
}

// A last action that is none: kill never with a size and no slots; a yank's size is 0 to 4,096, and 0 without a yank.
#[tactic(auto, unfolding(crate::specs::Calls::action_breaks))]
fn action_breaks(ring: Ring) -> bool
    ensures { result ≡ action_breaks ring }
{
    match ring.last_action() {
        Action::Kill => ring.yanked != 0 || (ring.count == 0 && ring.size != 0),
        Action::Yank(size) => SLOT_BYTES < size,
        Action::Other => 2 < ring.action || ring.yanked != 0,
    }
}

// The text of a slot.
fn slot_text<'a>(slots: &'a [u8], lens: &[u8], i: usize) -> &'a [u8]
    requires text_in_bounds { 4096 * i + 4096 ≤ length slots.now }
    requires len_in_bounds { 2 * i + 2 ≤ length lens.now }
    requires len_value { len_at lens.now i ≤ 4096 }
    ensures { result.now ≡ slot_bytes slots.now lens.now i }
{
    let from = SLOT_BYTES * i;
    let to = from + slot_len(lens, i);
    &slots[from..to]
}

// Is one of the first n slots' texts none of the repertoire?
fn any_foreign(slots: &[u8], lens: &[u8], n: usize) -> bool
    requires n_in_bounds { 4096 * n ≤ length slots.now }
    requires lens_in_bounds { 2 * n ≤ length lens.now }
    requires n_value { any_over lens.now 0 n ≡ false }
    ensures { result ≡ any_foreign catalogue (slots_from slots.now lens.now 0 n) }
{
    (0..n).any(|i| !check_text(slot_text(slots, lens, i)))
}

// Check 8 of a lent ring that check 2 passes.
#[tactic(auto, unfolding(crate::specs::Calls::damaged))]
fn is_damaged(slots: &[u8], lens: &[u8], ring: Ring) -> bool
    requires { over_sizes (lent slots.now lens.now ring) ≡ false }
    ensures { result ≡ damaged catalogue (lent slots.now lens.now ring) }
{
    ring.size < ring.count
        || index_breaks(ring)
        || action_breaks(ring)
        || any_foreign(slots, lens, ring.count)
}

// The one check of every call that is lent a ring: the first of the checks 2, 3, 4 and 8 that it meets, `Ok` where they pass. `code`
// says that a number names no direction, `foreign` that a text is outside the repertoire.
#[tactic(auto, unfolding(checks::specs::Checks::refusal))]
pub fn refusal(
    slots: &[u8],
    lens: &[u8],
    ring: Ring,
    code: bool,
    foreign: bool,
) -> Result<(), Refused>
    ensures { refused_by result ≡ checked catalogue (lent slots.now lens.now ring) code foreign }
{
    if over_sizes(slots, lens, ring) {
        return Err(Refused::Sizes);
    }
    if code {
        return Err(Refused::Code);
    }
    if foreign {
        return Err(Refused::Foreign);
    }
    if is_damaged(slots, lens, ring) {
        return Err(Refused::Damaged);
    }
    Ok(())
}

// A number alone.
fn says(number: u32, ring: Ring) -> AnswerAndRing
    ensures { result ≡ record { answer = Calls·says number 0 0; ring = ring } }
{
    let answer = RingAnswer {
        number,
        slot: 0,
        size: 0,
    };
    AnswerAndRing { answer, ring }
}

// A call that is refused, or stopped: the ring is as it was.
fn turned_away(why: Refused, ring: Ring) -> AnswerAndRing
    ensures { result ≡ answer_and_ring ring (refused (number_of why)) }
{
    says(why.into(), ring)
}

// The answer of a slot and a size, and the ring after that slot was yanked.
fn yanked(lens: &[u8], ring: Ring, i: usize, size: usize) -> AnswerAndRing
    requires { 2 * i + 2 ≤ length lens.now }
    ensures { result ≡ record {
      answer = Calls·says 0 i size;
      ring = record
          { size = ring.size; count = ring.count; index = i; action = 1; yanked = len_at lens.now i };
    } }
{
    let answer = RingAnswer {
        number: 0,
        slot: i,
        size,
    };
    let left = Ring { index: i, ..ring };
    let ring = left.with_action(Action::Yank(slot_len(lens, i)));
    AnswerAndRing { answer, ring }
}

// Wrong answers ruled out: a ring of 17 slots made; the last action kill, so that the first kill would join a slot that is not there.
pub fn new(ring: Ring, size: usize) -> AnswerAndRing
    ensures { result ≡ answer_and_ring ring (new_call size) }
{
    if MOST_SLOTS < size {
        return turned_away(Refused::Sizes, ring);
    }
    let empty = Ring {
        size,
        count: 0,
        index: 0,
        ..ring
    };
    says(0, empty.with_action(Action::Other))
}

// ---- the calls on a ring that the checks pass
// What they are lent stands in parameters, and that the checks pass in a clause, and not in a type of its own: a kill is lent the
// buffers to write and the others are lent them to read, so that no one type has both.

// reset on a ring that the checks pass.
pub fn reset_checked(slots: &[u8], lens: &[u8], ring: Ring) -> AnswerAndRing
    requires { checked catalogue (lent slots.now lens.now ring) false false ≡ 0 }
    ensures { result ≡ answer_and_ring ring (reset_out (value_of (lent slots.now lens.now ring))) }
{
    says(0, ring.with_action(Action::Other))
}

// Wrong answers ruled out: the slots dropped; the yank's size kept.
pub fn reset(slots: &[u8], lens: &[u8], ring: Ring) -> AnswerAndRing
    ensures { result ≡ answer_and_ring ring (reset_call catalogue (lent slots.now lens.now ring)) }
{
    if let Err(why) = refusal(slots, lens, ring, false, false) {
        return turned_away(why, ring);
    }
    reset_checked(slots, lens, ring)
}

// yank on a ring that the checks pass.
pub fn yank_checked(slots: &[u8], lens: &[u8], ring: Ring) -> AnswerAndRing
    requires { checked catalogue (lent slots.now lens.now ring) false false ≡ 0 }
    ensures { result ≡ answer_and_ring ring (yank_out (value_of (lent slots.now lens.now ring))) }
{
    if ring.count == 0 {
        return says(1, ring);
    }
    yanked(lens, ring, ring.index, 0)
}

// Wrong answers ruled out: 0 where there are no slots; the size of the yank before answered.
pub fn yank(slots: &[u8], lens: &[u8], ring: Ring) -> AnswerAndRing
    ensures { result ≡ answer_and_ring ring (yank_call catalogue (lent slots.now lens.now ring)) }
{
    if let Err(why) = refusal(slots, lens, ring, false, false) {
        return turned_away(why, ring);
    }
    yank_checked(slots, lens, ring)
}

// The slot before, round to the last.
fn previous(index: usize, count: usize) -> usize
    requires { 0 < count }
    ensures { result ≡ cond (eqb index 0) (count - 1) (index - 1) }
{
    index.checked_sub(1).unwrap_or(count - 1)
}

// yank_pop on a ring that the checks pass.
pub fn yank_pop_checked(slots: &[u8], lens: &[u8], ring: Ring) -> AnswerAndRing
    requires { checked catalogue (lent slots.now lens.now ring) false false ≡ 0 }
    ensures { result ≡ answer_and_ring ring (yank_pop_out (value_of (lent slots.now lens.now ring))) }
{
    match ring.last_action() {
        Action::Yank(size) if ring.count != 0 => {
            yanked(lens, ring, previous(ring.index, ring.count), size)
        }
        _ => says(1, ring),
    }
}

// Wrong answers ruled out: 0 where the last action is no yank; the size of the slot that it answers.
pub fn yank_pop(slots: &[u8], lens: &[u8], ring: Ring) -> AnswerAndRing
    ensures { result ≡ answer_and_ring ring (yank_pop_call catalogue (lent slots.now lens.now ring)) }
{
    if let Err(why) = refusal(slots, lens, ring, false, false) {
        return turned_away(why, ring);
    }
    yank_pop_checked(slots, lens, ring)
}

// The slot that a kill writes: after a kill the same, else round to the first behind the last of the size, one further where there
// are any.
#[tactic(auto, unfolding(crate::specs::Killed::slot_of))]
fn kill_index(ring: Ring) -> usize
    requires { (0 < ring.size) × (ring.index ≤ 16) }
    ensures { result ≡ slot_of ring }
{
    match ring.last_action() {
        Action::Kill => ring.index,
        _ if ring.index == ring.size - 1 => 0,
        _ if ring.count == 0 => ring.index,
        _ => ring.index + 1,
    }
}

// The length of what a kill joins: after a kill what the slot holds, else nothing.
#[tactic(auto, unfolding(crate::specs::Killed::used_of))]
fn kill_used(lens: &[u8], ring: Ring) -> usize
    requires { 2 * ring.index + 2 ≤ length lens.now }
    ensures { result ≡ used_of lens.now ring }
{
    match ring.last_action() {
        Action::Kill => slot_len(lens, ring.index),
        _ => 0,
    }
}

// The ring after a kill into a slot: one more in use where that slot is behind the last.
#[tactic(auto, unfolding(crate::specs::Killed::killed_into))]
fn killed(ring: Ring, i: usize) -> Ring
    requires { ring.count ≤ 16 }
    ensures { result ≡ killed_into ring i }
{
    let count = if i == ring.count {
        ring.count + 1
    } else {
        ring.count
    };
    let left = Ring {
        count,
        index: i,
        ..ring
    };
    left.with_action(Action::Kill)
}

// Puts text at a place into what a slot holds.
fn put_text(slots: &mut [u8], i: usize, used: usize, at: usize, text: &[u8])
    requires i_in_bounds { 4096 * i + 4096 ≤ length slots.old }
    requires at_le_used { (at ≤ used) × (used + length text.now ≤ 4096) }
    ensures { Put slots.old i (inserted (take used (drop (4096 * i) slots.old)) at text.now) slots.new }
{
    let from = SLOT_BYTES * i;
    let to = from + SLOT_BYTES;
    insert_bytes(&mut slots[from..to], used, at, text);
}

// kill in a direction, on a ring that the checks pass.
pub fn kill_checked(
    slots: &mut [u8],
    lens: &mut [u8],
    ring: Ring,
    text: &[u8],
    m: Mode,
) -> AnswerAndRing
    requires { checked catalogue (lent slots.old lens.old ring) false false ≡ 0 }
    ensures { Ringed (lent slots.old lens.old ring)
        (kill_out m text.now (value_of (lent slots.old lens.old ring)))
        result slots.new lens.new }
{
    if ring.size == 0 {
        return says(0, ring.with_action(Action::Kill));
    }
    let used = kill_used(lens, ring);
    if SLOT_BYTES - used < text.len() {
        return turned_away(Refused::RingFull, ring);
    }
    let i = kill_index(ring);
    put_text(slots, i, used, m.place(used), text);
    write_num(lens, 2 * i, used + text.len(), 2);
    says(0, killed(ring, i))
}

// The direction of a kill that the checks pass.
#[tactic(auto, using(crate::proofs::Kills::named_number))]
fn checked_mode(
    slots: &[u8],
    lens: &[u8],
    ring: Ring,
    text: &[u8],
    mode: u32,
) -> Result<Mode, Refused>
    ensures number { refused_by result ≡
        checked catalogue (lent slots.now lens.now ring) (is_none (mode_of mode)) (not (is_text catalogue text.now)) }
    ensures mode { IfOk result (λ m. mode_of mode ≡ Some m) }
{
    let named = Mode::try_from(mode);
    refusal(slots, lens, ring, named.is_err(), !check_text(text))?;
    named.or(Err(Refused::Code))
}

// Wrong answers ruled out: a slot of its own for a kill after a kill; a text of 4,097 bytes cut off at 4,096.
pub fn kill(slots: &mut [u8], lens: &mut [u8], ring: Ring, text: &[u8], mode: u32) -> AnswerAndRing
    ensures { Ringed (lent slots.old lens.old ring)
        (kill_call catalogue (lent slots.old lens.old ring) text.now mode)
        result slots.new lens.new }
{
    match checked_mode(slots, lens, ring, text, mode) {
        Ok(m) => kill_checked(slots, lens, ring, text, m),
        Err(why) => turned_away(why, ring),
    }
}
