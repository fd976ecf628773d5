use job::reader::JobReader;
use job::whole::Job;
use path::command::Command;

// How a job reads into lists of two commands and one dash: the refusal's number and place, or none.
fn refused(bytes: &[u8]) -> Option<(u8, usize)> {
    let mut commands = [Command::Close; 2];
    let mut dashes = [0.0; 1];
    let mut job = Job::new(&mut commands, &mut dashes);
    match JobReader::new(bytes).read(&mut job) {
        Ok(()) => None,
        Err(r) => Some((u8::from(r.reason), r.place)),
    }
}

#[test]
fn unknown_letters(rt: HostRuntime) {
    assert_eq!(rt; refused(b""), None);
    assert_eq!(rt; refused(b"X"), Some((10, 0)));
    assert_eq!(rt; refused(b"Zz"), Some((10, 1)));
    assert_eq!(rt; refused(b"J\x01\x00"), Some((10, 2)));
}

#[test]
fn missing_operands(rt: HostRuntime) {
    assert_eq!(rt; refused(b"W\x40\x00\x00"), Some((11, 0)));
    assert_eq!(rt; refused(b"W\x40\x00\x00\x00"), None);
    assert_eq!(rt; refused(b"ZS"), Some((11, 1)));
    assert_eq!(rt; refused(b"M1234567"), Some((11, 0)));
    assert_eq!(rt; refused(b"M12345678"), None);
    assert_eq!(rt; refused(b"Q123456781234567"), Some((11, 0)));
    assert_eq!(rt; refused(b"Q1234567812345678"), None);
    assert_eq!(rt; refused(b"C12345678123456781234567"), Some((11, 0)));
    assert_eq!(rt; refused(b"C123456781234567812345678"), None);
}

#[test]
fn unknown_shapes(rt: HostRuntime) {
    assert_eq!(rt; refused(b"J\x02S\x02E\x02"), None);
    assert_eq!(rt; refused(b"J\x03"), Some((12, 0)));
    assert_eq!(rt; refused(b"J\x02S\x03"), Some((12, 2)));
    assert_eq!(rt; refused(b"E\xff"), Some((12, 0)));
}

// Asked in the order of their numbers: the operands of a letter before its place in the list.
#[test]
fn full_lists(rt: HostRuntime) {
    assert_eq!(rt; refused(b"ZZ"), None);
    assert_eq!(rt; refused(b"ZZZ"), Some((13, 2)));
    assert_eq!(rt; refused(b"D1234"), None);
    assert_eq!(rt; refused(b"D1234D1234"), Some((13, 5)));
    assert_eq!(rt; refused(b"ZZM1234567"), Some((11, 2)));
    assert_eq!(rt; refused(b"ZZW1234"), None);
}

// Longer lists take no more than 4,096 commands.
#[test]
fn most_commands(rt: HostRuntime) {
    let mut commands = [Command::Close; 4097];
    let mut dashes = [0.0; 1];
    let bytes = [b'Z'; 4097];
    let mut job = Job::new(&mut commands, &mut dashes);
    let mut reader = JobReader::new(&bytes);
    assert!(rt; reader.read(&mut job).is_err());
    assert_eq!(rt; reader.place(), 4096);
    assert_eq!(rt; job.commands.len(), 4096);
}

// Nor more than 32 dashes.
#[test]
fn most_dashes(rt: HostRuntime) {
    let mut commands = [Command::Close; 1];
    let mut dashes = [0.0; 33];
    let bytes = [b'D'; 165];
    let mut job = Job::new(&mut commands, &mut dashes);
    let mut reader = JobReader::new(&bytes);
    assert!(rt; reader.read(&mut job).is_err());
    assert_eq!(rt; reader.place(), 160);
    assert_eq!(rt; job.dashes.len(), 32);
}

// What came before a refusal stays, and the reader with it at the letter.
#[test]
fn kept_at_a_refusal(rt: HostRuntime) {
    let mut commands = [Command::Close; 2];
    let mut dashes = [0.0; 1];
    let mut job = Job::new(&mut commands, &mut dashes);
    let mut reader = JobReader::new(b"W\x40\x00\x00\x00ZJ\x07Z");
    assert!(rt; reader.read(&mut job).is_err());
    assert_eq!(rt; reader.place(), 6);
    assert_eq!(rt; job.style.width, 2.0);
    assert_eq!(rt; job.commands.len(), 1);
    assert!(rt; reader.next().is_err());
    assert_eq!(rt; reader.place(), 6);
}

fn width_of(bytes: &[u8]) -> f32 {
    let mut job = Job::new(&mut [], &mut []);
    let _ = JobReader::new(bytes).read(&mut job);
    job.style.width
}

// Every NaN pattern, of either sign, is NaN; infinity and the largest number are not.
#[test]
fn nan_patterns(rt: HostRuntime) {
    assert!(rt; width_of(b"W\x7f\x80\x00\x01").is_nan());
    assert!(rt; width_of(b"W\x7f\xc0\x00\x00").is_nan());
    assert!(rt; width_of(b"W\xff\x80\x00\x01").is_nan());
    assert!(rt; width_of(b"W\xff\xff\xff\xff").is_nan());
    assert_eq!(rt; width_of(b"W\x7f\x80\x00\x00"), f32::INFINITY);
    assert_eq!(rt; width_of(b"W\xff\x80\x00\x00"), f32::NEG_INFINITY);
    assert_eq!(rt; width_of(b"W\x7f\x7f\xff\xff"), f32::MAX);
}
