// The reader's own state and its steps that touch no lent list.

ghost use Rattle.std.specs.Prelude.{◌≡◌, get_or, ◌+◌, ◌<◌, ◌≤◌, ◌^◌};
ghost use Rattle.lattice.specs.declared.lattice.Edges.TheVariants.{Pml};
ghost use Rattle.programs.specs.Bytes.{word32, pair_at};
ghost use Rattle.programs.specs.Reading.{fresh, told_by, between as between_with, answered as answered_with, out_of_turn as out_of_turn_at, last_offset, opened as opened_at, axis_seen, bare_at, bare_read, kind_read, taken, body_read, stepped, whole, grid_verdict, grid_read, axis_read, number_read, choice_read, finished};

use crate::kinds::Kind;
use crate::records::{BODY, Seen, Stage};
use crate::{bytes, records};
use lattice::check;
use lattice::lattice::Edges;
use numbers::C64;
use store::Choice;
use store::told::Told;

// A record whose kind byte, at the offset `start`, is read, and its body's first `filled` bytes.
#[derive(Clone, Copy)]
pub struct Begun {
    pub start: usize,
    pub filled: usize,
    pub body: [u8; BODY],
}

// Where a reading stands. `begun`: the record that it is in. `at`: the offset of the next byte. `answer`: the level count so far, or the refusal that ended the reading.
#[derive(Clone, Copy)]
pub struct Reader {
    pub seen: Seen,
    pub begun: Option<Begun>,
    pub at: usize,
    pub answer: Result<usize, Told>,
}

// Before the first byte.
pub fn fresh() -> Reader
    ensures { result ≡ fresh }
{
    Reader {
        seen: records::unseen(),
        begun: None,
        at: 0,
        answer: Ok(0),
    }
}

// ---- the state

// Between records, with what was read so far.
pub fn between(r: Reader, seen: Seen) -> Reader
    ensures { result ≡ between_with r seen }
{
    Reader {
        seen,
        begun: None,
        ..r
    }
}

// Between records, with an answer.
pub fn answered(r: Reader, answer: Result<usize, Told>) -> Reader
    ensures { result ≡ answered_with r answer }
{
    Reader {
        begun: None,
        answer,
        ..r
    }
}

// Refusal 12 at a place.
pub fn out_of_turn(r: Reader, place: usize) -> Reader
    ensures { result ≡ out_of_turn_at r place }
{
    answered(r, Err(Told::new(12, place)))
}

// ---- a byte of kind

// In the body of a record whose kind byte stands here.
fn opened(r: Reader) -> Reader
    requires { r.at < last_offset }
    ensures { result ≡ opened_at r }
{
    let begun = Begun {
        start: r.at,
        filled: 0,
        body: [0u8; BODY],
    };
    Reader {
        begun: Some(begun),
        at: r.at + 1,
        ..r
    }
}

// The kind of the next axis, where one is next.
fn axis_seen(s: Seen, e: Edges) -> Seen
    ensures { result ≡ axis_seen s e }
{
    match s.stage {
        Stage::AxisX => Seen {
            stage: Stage::AxisY,
            x: e,
            ..s
        },
        Stage::AxisY => Seen {
            stage: Stage::AxisZ,
            y: e,
            ..s
        },
        Stage::AxisZ => Seen {
            stage: Stage::Numbers,
            z: e,
            ..s
        },
        Stage::Start | Stage::Numbers | Stage::Changes | Stage::Over => s,
    }
}

// A wall or the end.
fn bare_seen(s: Seen) -> Seen
    ensures { result ≡ bare_at s.stage s }
{
    match s.stage {
        Stage::AxisX | Stage::AxisY | Stage::AxisZ => axis_seen(s, Edges::Pml),
        Stage::Start | Stage::Numbers | Stage::Changes | Stage::Over => Seen {
            stage: Stage::Over,
            ..s
        },
    }
}

// A record without a body.
#[tactic(auto, unfolding(crate::specs::Reading::bare_read))]
fn bare_read(r: Reader) -> Reader
    requires { r.at < last_offset }
    ensures { result ≡ bare_read r }
{
    Reader {
        at: r.at + 1,
        ..between(r, bare_seen(r.seen))
    }
}

// A byte of kind: 12 where the record is out of turn.
#[tactic(auto, using(crate::proofs::ReadingLaws::byte_there, crate::proofs::ReadingLaws::byte_elsewhere, crate::proofs::ReadingLaws::byte_nowhere), unfolding(crate::specs::Reading::kind_read))]
pub fn kind_read(r: Reader, b: u8) -> Reader
    requires { r.at < last_offset }
    ensures { result ≡ kind_read r b }
{
    let Ok(kind) = Kind::try_from(b) else {
        return out_of_turn(r, r.at);
    };
    if records::due(r.seen) == Some(kind) {
        return opened(r);
    }
    if records::bare(r.seen.stage) == Some(kind) {
        return bare_read(r);
    }
    out_of_turn(r, r.at)
}

// ---- a byte of a body

#[tactic(auto, unfolding(crate::specs::Reading::taken))]
pub fn taken(r: Reader, o: Begun, b: u8) -> Reader
    requires { (o.filled < 46) × (r.at < last_offset) }
    ensures { result ≡ taken r o b }
{
    let mut body = o.body;
    body[o.filled] = b;
    let begun = Begun {
        filled: o.filled + 1,
        body,
        ..o
    };
    Reader {
        begun: Some(begun),
        at: r.at + 1,
        ..r
    }
}

// The byte goes to the body, if it has room.
#[tactic(auto, unfolding(crate::specs::Reading::body_read))]
fn body_read(r: Reader, o: Begun, b: u8) -> Reader
    requires { r.at < last_offset }
    ensures { result ≡ body_read r o b }
{
    if o.filled < records::size_due(r.seen) {
        return taken(r, o, b);
    }
    out_of_turn(r, o.start)
}

// ---- any byte

// One byte, without what a whole record brings about.
#[tactic(auto, unfolding(crate::specs::Reading::stepped))]
pub fn stepped(r: Reader, b: u8) -> Reader
    ensures { result ≡ stepped r b }
{
    if r.answer.is_err() {
        return r;
    }
    if r.at == usize::MAX {
        return out_of_turn(r, r.at);
    }
    match r.begun {
        Some(o) => body_read(r, o, b),
        None => kind_read(r, b),
    }
}

// The body of the record, where it is whole.
#[tactic(auto, unfolding(crate::specs::Reading::whole))]
pub fn whole(r: Reader) -> Option<Begun>
    ensures { result ≡ whole r }
{
    if r.answer.is_err() {
        return None;
    }
    let o = r.begun?;
    if 0 < o.filled && o.filled == records::size_due(r.seen) {
        return Some(o);
    }
    None
}

// ---- a record whose body is whole

// Refusals 1 and 13 of a grid's body: at most `limit` cells, and room for the doubles of its numbers.
fn grid_told(b: [u8; BODY], limit: usize, room: usize) -> Told
    ensures { result ≡ told_by (grid_verdict limit room b) }
{
    let g = records::grid_of(b);
    if let Err(c) = check::check_grid(g) {
        return Told::from(c);
    }
    let cells = records::cell_count(b);
    if limit < cells {
        return Told::new(13, cells);
    }
    if room < 2 * (records::stretch_count(b) + records::edge_count(b)) {
        return Told::new(13, cells);
    }
    Told::new(0, 0)
}

// The grid.
#[tactic(auto, unfolding(crate::specs::Reading::grid_read))]
pub fn grid_read(r: Reader, b: [u8; BODY], limit: usize, room: usize) -> Reader
    ensures { result ≡ grid_read limit room r b }
{
    let seen = Seen {
        stage: Stage::AxisX,
        grid: b,
        ..r.seen
    };
    answered(between(r, seen), grid_told(b, limit, room).answer())
}

// Bloch.
#[tactic(auto, unfolding(crate::specs::Reading::axis_read))]
pub fn axis_read(r: Reader, b: [u8; BODY]) -> Reader
    ensures { result ≡ axis_read r b }
{
    between(r, axis_seen(r.seen, Edges::Bloch(bytes::pair_at(&b, 0))))
}

// A stretch or a permittivity.
#[tactic(auto, unfolding(crate::specs::Reading::number_read))]
pub fn number_read(r: Reader) -> Reader
    requires { r.seen.count < 2 ^ 51 }
    ensures { result ≡ number_read r }
{
    let seen = Seen {
        count: r.seen.count + 1,
        ..r.seen
    };
    between(r, seen)
}

// The choice and `coarsest`.
#[tactic(auto, unfolding(crate::specs::Reading::choice_read))]
pub fn choice_read(r: Reader, b: [u8; BODY]) -> Reader
    ensures { result ≡ choice_read r b }
{
    let seen = Seen {
        stage: Stage::Changes,
        choice: Choice::from(usize::from(b[0])),
        coarsest: bytes::word32(&b, 1),
        ..r.seen
    };
    between(r, seen)
}

// ---- the end of the file

// What the reading answers: the level count, or the refusal that ended it.
#[tactic(auto, unfolding(crate::specs::Reading::finished))]
pub fn finish(r: Reader) -> Result<usize, Told>
    ensures { result ≡ finished r }
{
    let levels = r.answer?;
    if r.seen.stage == Stage::Over {
        return Ok(levels);
    }
    match r.begun {
        Some(o) => Err(Told::new(12, o.start)),
        None => Err(Told::new(12, r.at)),
    }
}
