//! The lines of an answer before its body (RFC 9112, 2 to 5), made without memory.

ghost use Rattle.std.specs.Prelude.{◌≡◌, ◌≤◌, ◌<◌, ◌+◌, ◌++◌, [], length, take};
ghost use Rattle.std.specs.Fmt.{decimal};
ghost use Rattle.http.specs.StatusCode.{IsStatusCode};
ghost use Rattle.serde_json.specs.Written.{compact_text};
ghost use Rattle.desk_text.specs.Values.{error_value};
ghost use Rattle.desk_text.specs.Pieces.{Adds};
ghost use Rattle.desk_text.specs.Answers.{phrase, status_line, body_lines, head_text};

use ckd_image::text::put;
use http::StatusCode;
use itoa::Buffer;
use std::marker::Model;

/// The phrase that stands behind a status.
fn phrase_of(code: StatusCode) -> &'static str
    ensures { result.now ≡ phrase code }
{
    match code.canonical_reason() {
        Some(phrase) => phrase,
        None => "",
    }
}

/// The lines so far, at most 240 bytes. Contracts see the list of them.
#[derive(Debug, Drop)]
pub struct AnswerHead {
    bytes: [u8; 240],
    end: usize,
}

impl Model for AnswerHead {
    ghost use Rattle.std.specs.Prelude.{ℕ, List, ◌≤◌, take};

    ghost Value = { List ℕ };

    ghost view = { λ l. take l.end l.bytes };

    ghost invariant = { λ l. l.end ≤ 240 };
}

impl AnswerHead {
    fn new() -> AnswerHead
        ensures { result ≡ [] }
    {
        AnswerHead {
            bytes: [0; 240],
            end: 0,
        }
    }

    /// Their bytes.
    pub fn as_slice(&self) -> &[u8]
        ensures { result.now ≡ self.now }
    {
        &self.bytes[..self.end]
    }

    fn push(&mut self, piece: &[u8])
        requires { length self.old + length piece.now ≤ 240 }
        ensures text { Adds self.old self.new piece.now }
        ensures length { length self.new ≡ length self.old + length piece.now }
    {
        self.end = put(&mut self.bytes, self.end, piece);
    }

    /// Adds the status line.
    fn push_status(&mut self, status: u16)
        requires empty { length self.old ≤ 100 }
        requires status { IsStatusCode status }
        requires short { length (phrase status) ≤ 31 }
        ensures text { Adds self.old self.new (status_line status) }
        ensures length { length self.new ≤ length self.old + 46 }
    {
        let Ok(code) = StatusCode::from_u16(status) else {
            unreachable!();
        };
        self.push(b"HTTP/1.1 ");
        self.push(code.as_str().as_bytes());
        self.push(b" ");
        self.push(phrase_of(code).as_bytes());
        self.push(b"\r\n");
    }

    /// Adds what is said of the body.
    fn push_body_lines(&mut self, status: u16, size: usize)
        requires { length self.old ≤ 140 }
        ensures text { Adds self.old self.new (body_lines status size) }
        ensures length { length self.new ≤ length self.old + 70 }
    {
        if status == 204 {
            return;
        }
        self.push(b"content-type: application/json\r\ncontent-length: ");
        self.push(Buffer::new().format(size).as_bytes());
        self.push(b"\r\n");
    }

    /// All lines before a body of so many bytes, and the empty one. A 204 tells nothing of a body (RFC 9110, 8.6 and 15.3.5).
    pub fn of(status: u16, size: usize) -> AnswerHead
        requires status { IsStatusCode status }
        requires short { length (phrase status) ≤ 31 }
        ensures { result ≡ head_text status size }
    {
        let mut head = AnswerHead::new();
        head.push_status(status);
        head.push_body_lines(status, size);
        head.push(b"connection: close\r\n\r\n");
        head
    }

    /// The body of a refusal, which takes no memory.
    pub fn error(status: u16) -> AnswerHead
        ensures { result ≡ compact_text (error_value status) }
    {
        let mut body = AnswerHead::new();
        body.push(b"{\"error\":");
        body.push(Buffer::new().format(status).as_bytes());
        body.push(b"}");
        body
    }
}
