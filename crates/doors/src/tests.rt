// Each function that asks what lies outside, called once and more on what the system always has: a reader of known bytes, the files that
// are empty and that never end, a name of no file and one that is no text.
use super::*;
use std::test::Fail;

// Gives two bytes and then fails.
#[derive(Drop)]
struct Failing {
    given: bool,
}

impl Read for Failing {
    fn read(&mut self, buf: &mut [u8]) -> io::Result<usize> {
        if self.given || buf.len() < 2 {
            return Err(io::Error::from(ErrorKind::ConnectionReset));
        }
        self.given = true;
        buf[0] = b'p';
        buf[1] = b'l';
        Ok(2)
    }
}

#[test]
fn fills_to_the_end_of_either(rt: HostRuntime) -> Result<(), Fail> {
    let mut from: &[u8] = b"plan";
    let mut room = [0u8; 3];
    assert_eq!(rt; fill(&mut from, &mut room)?, 3);
    assert_eq!(rt; room, *b"pla");
    assert_eq!(rt; fill(&mut from, &mut room)?, 1);
    assert_eq!(rt; room[0], b'n');
    assert_eq!(rt; fill(&mut from, &mut room)?, 0);
    Ok(())
}

#[test]
fn a_read_that_fails_is_no_end(rt: HostRuntime) {
    let mut room = [0u8; 4];
    let failed = fill(&mut Failing { given: false }, &mut room);
    assert_eq!(rt;
        failed.map_err(|e| e.kind()),
        Err(ErrorKind::ConnectionReset)
    );
    assert_eq!(rt; room, *b"pl\0\0");
}

#[test]
fn files_are_filled_by_their_names(rt: HostRuntime) -> Result<(), Fail> {
    let mut room = [1u8; 4];
    assert_eq!(rt; fill_by(&rt, b"/dev/null", &mut room)?, 0);
    assert_eq!(rt; fill_by(&rt, b"/dev/zero", &mut room)?, 4);
    assert_eq!(rt; room, [0u8; 4]);
    let absent = fill_by(&rt, b"/dev/null/plan", &mut room);
    assert_eq!(rt; absent.map_err(|e| e.kind()), Err(ErrorKind::NotADirectory));
    let unnamed = fill_by(&rt, b"\xff", &mut room);
    assert_eq!(rt;
        unnamed.map_err(|e| e.kind()),
        Err(ErrorKind::InvalidFilename)
    );
    Ok(())
}

#[test]
fn a_test_is_started_with_its_name_and_no_empty_word(rt: HostRuntime) {
    assert!(rt; 1 <= word_count(&rt));
    assert!(rt; !asked_for_status(&rt));
}

#[test]
fn a_text_is_written(rt: HostRuntime) {
    assert!(rt; write(&rt, b"written\n") == Ok(()));
}
