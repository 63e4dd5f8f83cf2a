// The system's reason for a call that failed, as a text on the stack.
use std::fmt;
use std::fmt::Write;
use std::io::Error;

const ROOM: usize = 128;

#[derive(Drop)]
pub(crate) struct Reason {
    bytes: [u8; ROOM],
    len: usize,
}

impl Reason {
    // What std writes of an error. What there is no room for is left out.
    pub(crate) fn of(error: &Error) -> Reason {
        let mut reason = Reason {
            bytes: [0; ROOM],
            len: 0,
        };
        let _ = write!(reason, "{error}");
        reason
    }

    // The reason without the number that std puts behind it: `Is a directory`, and not `Is a directory (os error 21)`.
    pub(crate) fn text(&self) -> &str {
        let Ok(text) = str::from_utf8(&self.bytes[..self.len.min(ROOM)]) else {
            return "";
        };
        match text.split_once(" (os error ") {
            Some((reason, _)) => reason,
            None => text,
        }
    }

    fn push(&mut self, b: u8) {
        let len = self.len;
        if len < ROOM {
            self.bytes[len] = b;
            self.len = len + 1;
        }
    }
}

impl Write for Reason {
    fn write_str(&mut self, text: &str) -> fmt::Result {
        for b in text.as_bytes() {
            self.push(*b);
        }
        Ok(())
    }
}
