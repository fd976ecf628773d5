use crate::printed::slashed;
use lists::lent::front;
use maths::host::MathsHost;
use maths::series::SeriesHost;
use maths::table::TableHost;
use path::command::Command;
use path::geometry::{Point, Vector};
use path::refusal::Refusal;
use path::style::{Cap, Join, Stroke};
use segments::segment::Segment;
use sinks::bounds::Bounds;
use sinks::record_list::RecordList;
use sinks::shifted::Shifted;
use sinks::sink::{ReadableSink, Sink};
use std::alloc::{AllocError, Global};
use std::io;
use std::test::Fail;
use storage::lent_storage::LentStorage;
use storage::storage::Storage;
use stroke::calls::{stroke_into, stroke_with_storage};
use stroke::tally::Tally;
use stroke_lines::drawn::print_drawn;
use stroke_lines::outline::outline;
use stroke_lines::replay::replay_setting;
use stroke_lines::setting::{Setting, Unfit};

// The outlines, counts and steps that are expected are the Rust's own, its files built unchanged; the
// refusals are those of the rules.

const MOST_STEPS: u32 = 65_536;

// The farthest coordinate that passes, and the next number after it.
const FARTHEST: f32 = 1_048_576.0;

const TOO_FAR: f32 = 1_048_576.125;

// The outline of a line of length 8, and those of a line of length 16 in dashes and gaps of 4.
const FLAT: &str = "M 00000000 BF800000/L 41000000 BF800000/L 41000000 3F800000/\
L 00000000 3F800000/L 00000000 BF800000/Z/";

const ONE_DASH: &str = "M 00000000 BF800000/L 40800000 BF800000/L 40800000 3F800000/\
L 00000000 3F800000/L 00000000 BF800000/Z/";

const OTHER_DASH: &str = "M 41000000 BF800000/L 41400000 BF800000/L 41400000 3F800000/\
L 41000000 3F800000/L 41000000 BF800000/Z/";

// The two dashes moved by 10 and -1.
const MOVED_DASHES: &str = "M 41200000 C0000000/L 41600000 C0000000/L 41600000 00000000/\
L 41200000 00000000/L 41200000 C0000000/Z/M 41900000 C0000000/L 41B00000 C0000000/\
L 41B00000 00000000/L 41900000 00000000/L 41900000 C0000000/Z/= 12 6/";

// What a stroke answers, in numbers: what was sent and the steps, or a refusal's reason, place and count.
type Told = Result<(u64, u32), (u8, usize, u64)>;

fn told(answer: Result<Tally, Refusal>) -> Told {
    match answer {
        Ok(tally) => Ok((tally.sent, tally.steps)),
        Err(r) => Err((u8::from(r.reason), r.place, r.sent)),
    }
}

fn at(x: f32, y: f32) -> Point {
    Point::new(x, y)
}

fn begin(x: f32, y: f32) -> Command {
    Command::MoveTo(at(x, y))
}

fn line(x: f32, y: f32) -> Command {
    Command::LineTo(at(x, y))
}

// Lines of length 1 along the axis, so many of them; the first command is too short to be one.
fn row(heap: Global, lines: u8) -> Result<Vec<Command>, AllocError> {
    let mut row = Vec::new(heap);
    for x in 0..=lines {
        row.push(line(f32::from(x), 0.0))?;
    }
    Ok(row)
}

// Whether it holds just so many of those lines.
fn holds<B: Storage>(storage: &B, lines: u8) -> bool {
    (0..lines).all(|x| leads_to(storage.get(usize::from(x)), f32::from(x) + 1.0))
        && storage.len() == usize::from(lines)
}

fn leads_to(segment: Option<Segment>, x: f32) -> bool {
    match segment {
        Some(Segment::Line(_, line)) => line.a == at(x - 1.0, 0.0) && line.b == at(x, 0.0),
        _ => false,
    }
}

fn bevelled(width: f32, shape: Cap) -> Stroke {
    Stroke {
        width,
        join: Join::Bevel,
        start_cap: shape,
        end_cap: shape,
        ..Stroke::default()
    }
}

// What is printed of a stroke that left these commands.
fn left(heap: Global, commands: &[Command], answer: Result<Tally, Refusal>) -> io::Result<String> {
    let mut printed = Vec::new(heap);
    print_drawn(&mut printed, commands, answer)?;
    Ok(slashed(heap, &printed)?)
}

// A text that is two in a row.
fn both(heap: Global, first: &str, second: &str) -> Result<String, AllocError> {
    let mut text = String::new(heap);
    text.push_str(first)?;
    text.push_str(second)?;
    Ok(text)
}

// What a plain stroke of width 2 leaves in so many places, and what it answers.
fn sent_into(
    heap: Global,
    commands: &[Command],
    places: usize,
) -> Result<(Vec<Command>, Result<Tally, Refusal>), AllocError> {
    let mut places = vec![in heap; Command::Close; places]?;
    let mut list = RecordList::new(&mut places);
    let style = bevelled(2.0, Cap::Butt);
    let mut host = SeriesHost::new();
    let answer = stroke_into(commands, style, &[], MOST_STEPS, &mut list, &mut host);
    let mut sent = Vec::new(heap);
    sent.extend_from_slice(list.finish())?;
    Ok((sent, answer))
}

// The same in words, of any stroke.
fn drawn<K: MathsHost>(
    heap: Global,
    commands: &[Command],
    style: Stroke,
    dashes: &[f32],
    budget: u32,
    host: &mut K,
) -> io::Result<String> {
    let mut places = [Command::Close; 64];
    let mut list = RecordList::new(&mut places);
    let answer = stroke_into(commands, style, dashes, budget, &mut list, host);
    left(heap, list.finish(), answer)
}

// What a stroke answers, and whether a list and a storage that held something are as they were.
fn asked(commands: &[Command], width: f32, dashes: &[f32], budget: u32) -> (Told, bool) {
    let mut places = [Command::Close; 256];
    let mut list = RecordList::new(&mut places);
    let _ = list.close();
    let mut segments = [Segment::End(false); 64];
    let mut storage = LentStorage::new(&mut segments);
    let _ = storage.push(Segment::End(true));
    let answer = stroke_with_storage(
        commands,
        bevelled(width, Cap::Butt),
        dashes,
        budget,
        &mut list,
        &mut storage,
        &mut SeriesHost::new(),
    );
    let same = list.len() == 1 && storage.len() == 1 && storage.get(0) == Some(Segment::End(true));
    (told(answer), same)
}

// Each kind of command with a coordinate at each of its places.
fn commands_with(x: f32) -> [Command; 14] {
    let p = at(8.0, 0.0);
    [
        Command::MoveTo(at(x, 0.0)),
        Command::MoveTo(at(0.0, x)),
        Command::LineTo(at(x, 0.0)),
        Command::LineTo(at(0.0, x)),
        Command::CurveTo(at(x, 0.0), p, p),
        Command::CurveTo(at(0.0, x), p, p),
        Command::CurveTo(p, at(x, 0.0), p),
        Command::CurveTo(p, at(0.0, x), p),
        Command::CurveTo(p, p, at(x, 0.0)),
        Command::CurveTo(p, p, at(0.0, x)),
        Command::QuadTo(at(x, 0.0), p),
        Command::QuadTo(at(0.0, x), p),
        Command::QuadTo(p, at(x, 0.0)),
        Command::QuadTo(p, at(0.0, x)),
    ]
}

// A coordinate too far out is refused at its command, wherever in it, and so are NaN and the infinities.
#[test]
fn coordinates(rt: HostRuntime) {
    for x in [FARTHEST, -FARTHEST] {
        for c in commands_with(x) {
            let path = [begin(0.0, 0.0), line(8.0, 0.0), c, Command::Close];
            assert!(rt; asked(&path, 2.0, &[], 0).0.is_ok());
        }
    }
    for x in [
        TOO_FAR,
        -TOO_FAR,
        f32::NAN,
        f32::INFINITY,
        f32::NEG_INFINITY,
    ] {
        for c in commands_with(x) {
            let path = [begin(0.0, 0.0), line(8.0, 0.0), c, Command::Close, c];
            assert_eq!(rt; asked(&path, 2.0, &[], 0), (Err((2, 2, 0)), true));
        }
    }
}

// The other limits, for plain strokes and for dashed ones. A path that is too long is refused before its
// coordinates are looked at, and so on: the first question that is answered no tells.
#[test]
fn limits(rt: HostRuntime) {
    let path = [line(0.0, 0.0); 4097];
    let bad = [line(f32::NAN, 0.0); 4097];
    let dashes = [4.0; 33];
    let most = front(&path, 4096);
    let one = front(&path, 1);
    let entries = front(&dashes, 32);
    for (width, dashes) in [(4096.0, entries), (f32::NAN, &[]), (f32::NEG_INFINITY, &[])] {
        assert_eq!(rt; asked(most, width, dashes, MOST_STEPS).0, Ok((0, 0)));
    }
    let cases: [(&[Command], f32, &[f32], u32, u8); 12] = [
        (&path, 2.0, &[], 0, 1),
        (one, 4096.5, &[], 0, 3),
        (one, f32::INFINITY, &[], 0, 3),
        (one, 2.0, &dashes, 0, 4),
        (one, 2.0, &[0.0; 33], 0, 4),
        (one, 2.0, &[], 65_537, 5),
        (one, 2.0, entries, 65_537, 5),
        (&bad, 4096.5, &dashes, 65_537, 1),
        (front(&bad, 4096), 4096.5, &dashes, 65_537, 2),
        (most, 4096.5, &dashes, 65_537, 3),
        (most, 4096.0, &dashes, 65_537, 4),
        (most, 4096.0, entries, 65_537, 5),
    ];
    for (commands, width, dashes, budget, number) in cases {
        assert_eq!(rt;
            asked(commands, width, dashes, budget),
            (Err((number, 0, 0)), true)
        );
    }
}

// Into many places, with a storage of 128 and with one of 129.
fn stroked(heap: Global, commands: &[Command]) -> Result<(Told, Told), AllocError> {
    let mut places = vec![in heap; Command::Close; 1024]?;
    let mut list = RecordList::new(&mut places);
    let style = bevelled(2.0, Cap::Butt);
    let mut host = SeriesHost::new();
    let own = stroke_into(commands, style, &[], 0, &mut list, &mut host);
    let mut segments = [Segment::End(false); 129];
    let mut storage = LentStorage::new(&mut segments);
    let lent = stroke_with_storage(commands, style, &[], 0, &mut list, &mut storage, &mut host);
    Ok((told(own), told(lent)))
}

// A run of 128 segments fits and one of 129 does not, but into a storage of 129 it does. A closing line
// counts, and the runs before a refused one stay.
#[test]
fn long_runs(rt: HostRuntime) -> Result<(), Fail> {
    let heap = rt.alloc();
    let no = Err((6, 0, 0));
    for (lines, own, lent) in [
        (128, Ok((260, 0)), Ok((260, 0))),
        (129, no, Ok((262, 0))),
        (130, no, no),
    ] {
        assert_eq!(rt; stroked(heap, &row(heap, lines)?)?, (own, lent));
    }
    let mut path = row(heap, 128)?;
    path.push(Command::Close)?;
    assert_eq!(rt; stroked(heap, &path)?, (no, Ok((269, 0))));
    let mut path = row(heap, 1)?;
    path.push(begin(-1.0, 0.0))?;
    for c in &row(heap, 128)? {
        path.push(*c)?;
    }
    assert_eq!(rt; stroked(heap, &path)?, (Err((6, 1, 6)), Ok((268, 0))));
    Ok(())
}

// What a call with so many segments, places and steps answers, and whether the storage then holds just so
// many lines of a row.
fn stored(
    commands: &[Command],
    dashes: &[f32],
    (segments, places, budget): (usize, usize, u32),
    lines: u8,
) -> (Told, bool) {
    let mut room = [Segment::End(false); 8];
    let (room, _) = room.split_at_mut(segments.min(8));
    let mut storage = LentStorage::new(room);
    let mut list = [Command::Close; 64];
    let (list, _) = list.split_at_mut(places.min(64));
    let answer = stroke_with_storage(
        commands,
        bevelled(2.0, Cap::Butt),
        dashes,
        budget,
        &mut RecordList::new(list),
        &mut storage,
        &mut SeriesHost::new(),
    );
    (told(answer), holds(&storage, lines))
}

// The storage then holds what was last collected: a run, the part of one that fits, or nothing.
#[test]
fn what_a_storage_holds(rt: HostRuntime) {
    let path = [
        begin(0.0, 0.0),
        line(1.0, 0.0),
        line(2.0, 0.0),
        begin(0.0, 0.0),
        line(1.0, 0.0),
    ];
    let two = front(&path, 3);
    let cases: [(&[Command], &[f32], (usize, usize, u32), Told, u8); 9] = [
        (&[], &[], (8, 64, 0), Ok((0, 0)), 0),
        (two, &[], (8, 64, 0), Ok((8, 0)), 2),
        (front(&path, 4), &[], (8, 64, 0), Ok((8, 0)), 0),
        (&path, &[], (8, 64, 0), Ok((14, 0)), 1),
        (two, &[], (1, 64, 0), Err((6, 0, 0)), 1),
        (two, &[], (0, 64, 0), Err((6, 0, 0)), 0),
        (&path, &[], (8, 3, 0), Err((8, 1, 3)), 2),
        (&path, &[], (8, 9, 0), Err((8, 1, 9)), 1),
        (&path, &[4.0], (8, 64, 1), Err((7, 1, 8)), 2),
    ];
    for (commands, dashes, limits, told, lines) in cases {
        assert_eq!(rt; stored(commands, dashes, limits, lines), (told, true));
    }
}

// Six steps are asked for, the last one of them to find the run's end, and the dashes before a refusal
// stay. In a second run the place is 1.
#[test]
fn steps(rt: HostRuntime) -> Result<(), Fail> {
    let heap = rt.alloc();
    let path = [begin(0.0, 0.0), line(16.0, 0.0)];
    let twice = [
        begin(0.0, 0.0),
        line(16.0, 0.0),
        begin(0.0, 8.0),
        line(16.0, 8.0),
    ];
    let dashes = both(heap, ONE_DASH, OTHER_DASH)?;
    for (budget, end) in [(0, "! 7 0 0/"), (5, "! 7 0 12/"), (6, "= 12 6/")] {
        let style = bevelled(2.0, Cap::Butt);
        let host = &mut SeriesHost::new();
        let text = drawn(heap, &path, style, &[4.0, 4.0], budget, host)?;
        let before = if budget == 0 { "" } else { dashes.as_str() };
        assert_eq!(rt; text, both(heap, before, end)?);
    }
    assert_eq!(rt; stored(&twice, &[4.0], (8, 64, 8), 0).0, Err((7, 1, 18)));
    assert_eq!(rt; stored(&twice, &[4.0], (8, 64, 12), 0).0, Ok((24, 12)));
    Ok(())
}

// A list of few places holds the first commands of the whole row. The place counts the ends that were
// read: one more than the runs drawn before, but for the last run, which no end follows.
#[test]
fn few_places(rt: HostRuntime) -> Result<(), Fail> {
    let heap = rt.alloc();
    let path = [
        begin(0.0, 0.0),
        line(8.0, 0.0),
        begin(0.0, 16.0),
        line(8.0, 16.0),
        begin(0.0, 32.0),
        line(8.0, 32.0),
    ];
    let (whole, answer) = sent_into(heap, &path, 18)?;
    assert_eq!(rt;
        left(heap, &whole, answer)?.as_str(),
        "M 00000000 BF800000/L 41000000 BF800000/L 41000000 3F800000/\
L 00000000 3F800000/L 00000000 BF800000/Z/M 00000000 41700000/\
L 41000000 41700000/L 41000000 41880000/L 00000000 41880000/\
L 00000000 41700000/Z/M 00000000 41F80000/L 41000000 41F80000/\
L 41000000 42040000/L 00000000 42040000/L 00000000 41F80000/Z/= 18 0/"
    );
    for runs in 1..4 {
        for places in 0..6 * runs {
            let (sent, answer) = sent_into(heap, front(&path, 2 * runs), places)?;
            let place = (places / 6 + 1).min(runs - 1);
            assert!(rt; sent.as_slice() == front(&whole, places));
            assert_eq!(rt; told(answer), Err((8, place, places as u64)));
        }
    }
    Ok(())
}

// Widths, and the dots of a close alone, which a dashed stroke draws as a plain one does. The dash of NaN
// leaves the line's end for no time: the Rust sends a LineTo and a Close for it, with no MoveTo before.
#[test]
fn outlines(rt: HostRuntime) -> Result<(), Fail> {
    let heap = rt.alloc();
    let path = [begin(0.0, 0.0), line(8.0, 0.0)];
    let close = [Command::Close];
    let square = "M 00000000 3F800000/L BF800000 3F800000/L BF800000 BF800000/\
L 00000000 BF800000/L 3F800000 BF800000/L 3F800000 3F800000/\
L 00000000 3F800000/";
    let point = "M 00000000 00000000/L 00000000 00000000/L 00000000 00000000/\
L 00000000 00000000/Z/";
    let butt = bevelled(2.0, Cap::Butt);
    let out = bevelled(2.0, Cap::Square);
    let cases: [(&[Command], Stroke, &[f32], &str, &str); 8] = [
        (&path, butt, &[], FLAT, "= 6 0/"),
        (
            &path,
            bevelled(f32::NAN, Cap::Butt),
            &[],
            "M 00000000 BBA3D70A/L 41000000 BBA3D70A/\
L 41000000 3BA3D70A/L 00000000 3BA3D70A/L 00000000 BBA3D70A/Z/",
            "= 6 0/",
        ),
        (
            &path,
            bevelled(4096.0, Cap::Butt),
            &[],
            "M 00000000 C5000000/L 41000000 C5000000/\
L 41000000 45000000/L 00000000 45000000/L 00000000 C5000000/Z/",
            "= 6 0/",
        ),
        (&path, butt, &[4.0, 4.0, f32::NAN], ONE_DASH, "= 6 4/"),
        (&close, out, &[], square, "= 7 0/"),
        (&close, out, &[4.0, 4.0], square, "= 7 1/"),
        (&close, butt, &[], point, "= 5 0/"),
        (&close, butt, &[4.0, 4.0], point, "= 5 1/"),
    ];
    for (commands, style, dashes, outline, end) in cases {
        let text = drawn(
            heap,
            commands,
            style,
            dashes,
            MOST_STEPS,
            &mut SeriesHost::new(),
        )?;
        assert_eq!(rt; text, both(heap, outline, end)?);
    }
    Ok(())
}

// A host that answers NaN to all: each cap and join is one curve of NaN, and the contours are whole.
#[test]
fn maths_of_nan(rt: HostRuntime) -> Result<(), Fail> {
    let heap = rt.alloc();
    let path = [begin(0.0, 0.0), line(8.0, 0.0), line(8.0, 8.0)];
    let round = Stroke {
        join: Join::Round,
        ..bevelled(2.0, Cap::Round)
    };
    let mut host = TableHost::new(&[]);
    assert_eq!(rt;
        drawn(heap, &path, round, &[], MOST_STEPS, &mut host)?.as_str(),
        "M 00000000 BF800000/L 41000000 BF800000/\
C 7FC00000 7FC00000 7FC00000 7FC00000 7FC00000 7FC00000/L 41100000 41000000/\
C 7FC00000 7FC00000 7FC00000 7FC00000 7FC00000 7FC00000/L 40E00000 00000000/\
L 41000000 00000000/L 41000000 3F800000/L 00000000 3F800000/\
C 7FC00000 7FC00000 7FC00000 7FC00000 7FC00000 7FC00000/Z/= 11 0/"
    );
    assert_eq!(rt;
        drawn(
            heap,
            &[Command::Close],
            round,
            &[4.0, 4.0],
            MOST_STEPS,
            &mut host
        )?
        .as_str(),
        "M 00000000 3F800000/\
C 7FC00000 7FC00000 7FC00000 7FC00000 7FC00000 7FC00000/\
C 7FC00000 7FC00000 7FC00000 7FC00000 7FC00000 7FC00000/= 3 1/"
    );
    Ok(())
}

// Through layers a stroke answers as without them; the box has the points as they came to it.
#[test]
fn through_piles(rt: HostRuntime) -> Result<(), Fail> {
    let heap = rt.alloc();
    let path = [begin(0.0, 0.0), line(16.0, 0.0)];
    let style = bevelled(2.0, Cap::Butt);
    let by = Vector { x: 10.0, y: -1.0 };
    let mut host = SeriesHost::new();
    let mut places = [Command::Close; 12];
    let mut pile = Shifted::new(Bounds::new(RecordList::new(&mut places)), by);
    let answer = stroke_into(&path, style, &[4.0], MOST_STEPS, &mut pile, &mut host);
    let below = pile.into_inner();
    let corners = below.bounds().map(|b| (b.low, b.high));
    assert!(rt; corners == Some((at(10.0, -2.0), at(22.0, 0.0))));
    let list = below.into_inner();
    assert_eq!(rt; left(heap, list.finish(), answer)?.as_str(), MOVED_DASHES);
    let mut places = [Command::Close; 12];
    let mut pile = Bounds::new(Shifted::new(RecordList::new(&mut places), by));
    let answer = stroke_into(&path, style, &[4.0], MOST_STEPS, &mut pile, &mut host);
    let corners = pile.bounds().map(|b| (b.low, b.high));
    assert!(rt; corners == Some((at(0.0, -1.0), at(12.0, 1.0))));
    let list = pile.into_inner().into_inner();
    assert_eq!(rt; left(heap, list.finish(), answer)?.as_str(), MOVED_DASHES);
    Ok(())
}

fn outlined(heap: Global, mut bytes: &[u8]) -> io::Result<String> {
    let mut printed = Vec::new(heap);
    outline(&mut bytes, &mut printed)?;
    Ok(slashed(heap, &printed)?)
}

// Jobs as `outline` has them: the last one sends all that its 1,024 places take.
#[test]
fn outlined_jobs(rt: HostRuntime) -> Result<(), Fail> {
    let heap = rt.alloc();
    let line = b"W\x40\x00\x00\x00J\x00\
M\x00\x00\x00\x00\x00\x00\x00\x00LA\x00\x00\x00\x00\x00\x00\x00";
    assert_eq!(rt; outlined(heap, line)?, both(heap, FLAT, "= 6 0/")?);
    assert_eq!(rt; outlined(heap, b"")?.as_str(), "= 0 0/");
    assert_eq!(rt; outlined(heap, b"ZZX")?.as_str(), "! 10 2 0/");
    let path = [b'Z'; 513];
    assert_eq!(rt; outlined(heap, &path)?.as_str(), "! 13 512 0/");
    let lines = outlined(heap, front(&path, 512))?;
    assert_eq!(rt; lines.chars().filter(|c| *c == '/').count(), 1025);
    assert!(rt; lines.as_str().ends_with("/! 8 205 1024/"));
    Ok(())
}

// Whether four numbers and so many bytes more tell no replay.
fn unfit(heap: Global, numbers: [u32; 4], more: usize) -> Result<Option<Unfit>, AllocError> {
    let mut bytes = vec![in heap; 0; 0]?;
    for n in numbers {
        for byte in n.to_be_bytes() {
            bytes.push(byte)?;
        }
    }
    for _ in 0..more {
        bytes.push(0)?;
    }
    Ok(Setting::read(&bytes).err())
}

// The most that a setting may ask for, and one more of each.
#[test]
fn settings(rt: HostRuntime) -> Result<(), Fail> {
    assert!(rt; Setting::read(&[0; 15]).err() == Some(Unfit::ShortHeader));
    for (numbers, more, expected) in [
        ([70_000, 1_048_576, 4_294_967_295, 1], 131_081, None),
        ([70_001, 0, 0, 0], 0, Some(Unfit::TooManySegments)),
        ([0, 1_048_577, 0, 0], 0, Some(Unfit::TooManyPlaces)),
        ([0, 0, 0, 65_537], 0, Some(Unfit::TooManyRows)),
        ([0, 0, 0, 2], 17, Some(Unfit::ShortRows)),
        ([0, 0, 0, 1], 131_082, Some(Unfit::LongJob)),
    ] {
        assert!(rt; unfit(rt.alloc(), numbers, more)? == expected);
    }
    Ok(())
}

// What the Rust asked for a line with round caps, and what it was answered.
const ROWS: &[u8] = b"\
\x01\x00\x00\x00\x00\x00\x00\x00\x00\x02\x00\x00\x00\x00\x3f\x80\x00\x00\
\x03\x00\x00\x00\x00\x3f\xc9\x0f\xdb\x03\xbf\x80\x00\x00\x40\x49\x0f\xdb\
\x01\xbf\xc9\x0f\xdb\xbf\x80\x00\x00\x02\xbf\xc9\x0f\xdb\xb3\x3b\xbd\x2e\
\x01\x3f\xc9\x0f\xdb\x3f\x80\x00\x00\x02\x3f\xc9\x0f\xdb\xb3\x3b\xbd\x2e\
\x01\x40\x49\x0f\xdb\xb3\xbb\xbd\x2e\x02\x40\x49\x0f\xdb\xbf\x80\x00\x00\
\x01\x40\x96\xcb\xe4\xbf\x80\x00\x00\x02\x40\x96\xcb\xe4\x32\x4c\xde\x2e";

fn replayed(heap: Global, setting: Setting) -> io::Result<String> {
    let mut printed = Vec::new(heap);
    replay_setting(heap, &mut printed, setting)?;
    Ok(slashed(heap, &printed)?)
}

// Jobs as `replay` has them, with storages, lists and budgets that are just enough and too small.
#[test]
fn replayed_jobs(rt: HostRuntime) -> Result<(), Fail> {
    let heap = rt.alloc();
    let round = b"W\x40\x00\x00\x00J\x02S\x02E\x02\
M\x00\x00\x00\x00\x00\x00\x00\x00LA\x00\x00\x00\x00\x00\x00\x00";
    let corner = b"W\x40\x00\x00\x00J\x00\
M\x00\x00\x00\x00\x00\x00\x00\x00LA\x00\x00\x00\x00\x00\x00\x00LA\x00\x00\x00A\x00\x00\x00";
    let cases: [(usize, usize, u32, &[u8], &[u8], &str); 7] = [
        (
            1,
            8,
            0,
            ROWS,
            round,
            "M 00000000 BF800000/L 41000000 BF800000/\
C 4108D4A5 BF800000 41100000 BF0D4A4E 41100000 00000000/\
C 41100000 3F0D4A4E 4108D4A5 3F800000 41000000 3F800000/L 00000000 3F800000/\
C BF0D4A4F 3F800000 BF800000 3F0D4A4D BF800000 B3BBBD2E/\
C BF7FFFFF BF0D4A4F BF0D4A4E BF800000 324CDE2E BF800000/Z/= 8 0/",
        ),
        (
            1,
            8,
            0,
            b"",
            round,
            "M 00000000 BF800000/L 41000000 BF800000/\
C 7FC00000 7FC00000 7FC00000 7FC00000 7FC00000 7FC00000/L 00000000 3F800000/\
C 7FC00000 7FC00000 7FC00000 7FC00000 7FC00000 7FC00000/Z/= 6 0/",
        ),
        (
            2,
            11,
            MOST_STEPS,
            b"",
            corner,
            "M 00000000 BF800000/L 41000000 BF800000/L 41100000 00000000/\
L 41100000 41000000/L 40E00000 41000000/L 40E00000 00000000/\
L 41000000 00000000/L 41000000 3F800000/L 00000000 3F800000/\
L 00000000 BF800000/Z/= 11 0/",
        ),
        (1, 11, 0, b"", corner, "! 6 0 0/"),
        (
            2,
            3,
            0,
            b"",
            corner,
            "M 00000000 BF800000/L 41000000 BF800000/L 41100000 00000000/! 8 0 3/",
        ),
        (2, 11, 65_537, b"", corner, "! 5 0 0/"),
        (2, 11, 0, b"", b"ZJ\x03", "! 12 1 0/"),
    ];
    for (segments, places, budget, rows, job, expected) in cases {
        let setting = Setting {
            segments,
            places,
            budget,
            rows,
            job,
        };
        assert_eq!(rt; replayed(heap, setting)?.as_str(), expected);
    }
    Ok(())
}
