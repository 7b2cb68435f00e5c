use crate::{Mail, PutFault};
use bs_log::{Key, Message, Origin, Sent};
use bs_tree::{List, Path};
use std::alloc::{AllocError, Global};
use std::test::Fail;

fn key(entry: u32, reference: i64) -> Key {
    Key { entry, reference }
}

// A message of a key, with one argument.
fn message(alloc: Global, key: Key, value: i64) -> Result<Message, AllocError> {
    let mut args = List::new(alloc);
    args.push(value)?;
    let mut path = List::new(alloc);
    path.push(2)?;
    let origin = Origin {
        chare: 1,
        path: Path(path),
        index: 1,
        depth: 1,
    };
    let sent = Sent {
        to: 0,
        key,
        bytes: 8,
        offset: 1,
    };
    Ok(Message { origin, sent, args })
}

// The first argument of a message.
fn argument(message: &Message) -> Option<i64> {
    message.args.as_slice().first().copied()
}

// The argument of the message of a key, if it is held.
fn value(mail: &Mail, key: Key) -> Option<i64> {
    argument(mail.get(key)?)
}

// The argument of a message that came back since one of its key is held.
fn sent_twice(put: &Result<(), PutFault>) -> Option<i64> {
    match put {
        Err(PutFault::TwoSent(message)) => argument(message),
        _ => None,
    }
}

#[test]
fn a_message_is_found_by_its_key(rt: HostRuntime) -> Result<(), Fail> {
    let alloc = rt.alloc();
    let mut mail = Mail::new(alloc);
    assert_eq!(rt; mail.len(), 0);
    assert!(rt; mail.get(key(0, 0)).is_none());
    for (at, value) in [
        (key(1, -1), 10),
        (key(0, 5), 20),
        (key(1, 5), 30),
        (key(0, -5), 40),
    ] {
        assert!(rt; mail.put(message(alloc, at, value)?).is_ok());
    }
    let copy = mail.copy(alloc)?;
    for mail in [&mail, &copy] {
        assert_eq!(rt; mail.len(), 4);
        assert_eq!(rt; value(mail, key(1, -1)), Some(10));
        assert_eq!(rt; value(mail, key(0, 5)), Some(20));
        assert_eq!(rt; value(mail, key(1, 5)), Some(30));
        assert_eq!(rt; value(mail, key(0, -5)), Some(40));
        assert_eq!(rt; value(mail, key(1, -5)), None);
    }
    Ok(())
}

#[test]
fn the_first_of_two_messages_of_a_key_stays(rt: HostRuntime) -> Result<(), Fail> {
    let alloc = rt.alloc();
    let mut mail = Mail::new(alloc);
    assert!(rt; mail.put(message(alloc, key(3, 7), 10)?).is_ok());
    let again = mail.put(message(alloc, key(3, 7), 20)?);
    assert_eq!(rt; sent_twice(&again), Some(20));
    assert_eq!(rt; mail.len(), 1);
    assert_eq!(rt; value(&mail, key(3, 7)), Some(10));
    Ok(())
}
