//! An upgraded page, as a stream of lines.
ghost use Rattle.std.specs.Prelude.{◌≡◌, ◌≢◌, ◌<◌, ◌≤◌, ◌∷◌, ◌++◌, ◌⊎◌, [], Err, IfErr, IfOk, IsUtf8, List, None, Ok, OnOk, Some, IfSome, length, take, true, false, ℕ};
ghost use Rattle.std.specs.IoError.{error_kind};
ghost use Rattle.tungstenite.specs.declared.error.Error.TheVariants.{Io, WriteBufferFull};
ghost use Rattle.tungstenite.specs.Failure.{IsIo};
ghost use Rattle.tungstenite.specs.Socket.{Flushed, Reads, content_of};
ghost use Rattle.websocket.specs.Content.{text};
ghost use Rattle.web.specs.Receiving.{Receives, ReceivesNoText, ReceivesEnd, IsControl, IsForbidden};
ghost use Rattle.web.specs.Messages.{HoldsAfter, messages_of_first, without_return};
ghost use Rattle.web.specs.Sending.{IsPinged, IsSent, Queues, QueuesAll, QueuesPing};

use crate::lines::{LONGEST_LINE, ReceivedLine, UnfinishedLine};
use crate::read_once::ReadOnce;
use bytes::Bytes;
use std::alloc::{AllocError, Global};
use std::io::{ErrorKind, Read, Write};
use std::{io, str};
use tungstenite::{
    CloseCode, CloseFrame, Error, Message, NoMask, Role, Utf8Bytes, WebSocket, WebSocketConfig,
};

/// The most bytes read from the stream at once.
const READ_SIZE: usize = 4_096;

/// The most bytes that may be queued for sending, without frame headers.
const MAX_QUEUED: usize = 65_536;

/// A page connected by WebSocket: in both directions a message is one line.
///
/// It is read and written as a client's stream. A message from the page is read as its text and a
/// line feed; each line written becomes a message to the page.
#[derive(Drop)]
pub struct Page<S> {
    alloc: Global,
    socket: WebSocket<ReadOnce<S>, NoMask>,
    received: ReceivedLine,
    unfinished: UnfinishedLine,
    is_closed: bool,
}

impl<S: Read + Write + Drop> Page<S> {
    /// Creates a page on a stream on which the reply to the handshake is written. `leftover` holds
    /// the bytes read after the request's head, at most 8,192.
    ///
    /// # Errors
    ///
    /// Out of memory; 16 KiB are allocated here.
    pub fn new(alloc: Global, stream: S, leftover: &[u8]) -> Result<Self, AllocError>
        ensures leftover { IfOk result (λ page. page.socket.input ≡ leftover.now) }
        ensures stream { IfOk result (λ page. page.socket.stream.stream ≡ stream) }
        ensures nothing { IfOk result
            (λ page. (page.received ≡ []) × (page.unfinished ≡ []) × (page.socket.output ≡ [])) }
        // A longer frame or message ends the WebSocket.
        ensures limits { IfOk result (λ page. (page.socket.conn.config.max_message_size ≡ Some 512)
            × (page.socket.conn.config.max_frame_size ≡ Some 512)) }
    {
        let mut input = Vec::with_capacity(alloc, 4 * READ_SIZE)?;
        input.extend_from_slice(leftover)?;
        let config = WebSocketConfig::default()
            .read_buffer_size(READ_SIZE)
            .write_buffer_size(usize::MAX)
            .max_write_buffer_size(MAX_QUEUED)
            .max_message_size(Some(LONGEST_LINE))
            .max_frame_size(Some(LONGEST_LINE));
        Ok(Page {
            alloc,
            socket: WebSocket::from_partially_read(
                alloc,
                ReadOnce::new(stream),
                NoMask,
                input,
                Role::Server,
                Some(config),
            ),
            received: ReceivedLine::new(),
            unfinished: UnfinishedLine::new(),
            is_closed: false,
        })
    }

    /// The underlying stream.
    pub fn stream(&self) -> &S {
        self.socket.get_ref().get_ref()
    }

    /// The underlying stream.
    pub fn stream_mut(&mut self) -> &mut S {
        self.socket.get_mut().get_mut()
    }

    /// Sends the page one message between lines, whole or not at all.
    ///
    /// # Errors
    ///
    /// `WouldBlock` if a line is unfinished or the send queue is full: nothing is sent then. Any
    /// other error if the page has disconnected or memory is out.
    pub fn send(&mut self, message: &str) -> io::Result<()>
        ensures sent { OnOk result
            (IsSent (λ s. S.contents s.stream) (message.now ∷ []) self.old.socket self.new.socket) }
        ensures between { OnOk result (self.old.unfinished ≡ []) }
        ensures kept { self.new.unfinished ≡ self.old.unfinished }
        // Otherwise some queued bytes were sent, and none were added.
        ensures full { IfErr result (λ e. error_kind e ≡ ErrorKind.WouldBlock
            → Flushed (λ s. S.contents s.stream) self.old.socket self.new.socket) }
    {
        self.flush_queued()?;
        if !self.unfinished.is_empty() {
            return Err(io::Error::from(ErrorKind::WouldBlock));
        }
        queue_message(&mut self.socket, self.alloc, message)?;
        self.flush_queued()?;
        Ok(())
    }

    /// Sends the page an empty ping, which every browser answers (RFC 6455, section 5.5.2).
    ///
    /// # Errors
    ///
    /// `WouldBlock` if the send queue is full: no ping is sent then. Any other error if the page has
    /// disconnected or memory is out.
    pub fn ping(&mut self) -> io::Result<()>
        ensures sent { OnOk result
            (IsPinged (λ s. S.contents s.stream) self.old.socket self.new.socket) }
        ensures received { self.new.received ≡ self.old.received }
        ensures unfinished { self.new.unfinished ≡ self.old.unfinished }
        ensures is_closed { self.new.is_closed ≡ self.old.is_closed }
    {
        self.flush_queued()?;
        queue_ping(&mut self.socket)?;
        self.flush_queued()?;
        Ok(())
    }

    /// Reads the messages that the page sent: the text of each, followed by a line feed. It never
    /// blocks, and reads the stream at most once.
    ///
    /// Returns `Ok(0)` if the page has closed or has violated the protocol; every later call does
    /// too.
    ///
    /// # Errors
    ///
    /// No text message is lost by an error. `WouldBlock` if no text is available; `Interrupted` if
    /// none is available yet and the stream may hold more: call again without waiting. After any
    /// other error of the stream the page has disconnected.
    pub fn read_lines(&mut self, room: &mut [u8]) -> io::Result<usize>
        ensures bound { IfOk result (λ n. n ≤ length room.new) }
        ensures len { length room.new ≡ length room.old }
        // The rest of a message is read first,
        ensures goes_on { IfOk result (λ n. 0 < n → 0 < length self.old.received
            → self.old.received ≡ take n room.new ++ self.new.received) }
        // and then the next message begins.
        ensures begins { IfOk result (λ n. 0 < n → self.old.received ≡ [] → (line : List ℕ)
            × Receives (λ s. S.remaining s.stream) line self.old.socket self.new.socket
            × (line ++ 10 ∷ [] ≡ take n room.new ++ self.new.received)) }
        // An error consumes no text: the bytes held are unchanged, and the frames read held none.
        ensures kept { IfErr result
            (λ _. (self.new.received ≡ self.old.received)
            × (self.new.is_closed ≡ self.old.is_closed)) }
        ensures no_text { IfErr result
            (λ _. ReceivesNoText (λ s. S.remaining s.stream) self.old.socket self.new.socket) }
        ensures unfinished { self.new.unfinished ≡ self.old.unfinished }
        // The page is closed for good only at its end.
        ensures closed { IfOk result (λ n. n ≡ 0 → 0 < length room.new → (self.new.is_closed ≡ true)
            × (self.old.is_closed ≡ false
            → ReceivesEnd (λ s. S.remaining s.stream) self.old.socket)) }
    {
        if self.is_closed {
            return Ok(0);
        }
        if self.received.is_empty() && !self.receive()? {
            self.is_closed = true;
            return Ok(0);
        }
        Ok(self.received.copy_into(room))
    }

    /// Takes bytes of lines: each line that ends becomes a message, without its carriage return and
    /// line feed. How the bytes are divided into calls changes nothing. Returns the number of bytes
    /// taken.
    ///
    /// # Errors
    ///
    /// `WouldBlock` if the send queue is full: no byte is taken then. Any other error if the page
    /// has disconnected, memory is out, or a line is not UTF-8.
    pub fn write_lines(&mut self, bytes: &[u8]) -> io::Result<usize>
        ensures bound { IfOk result (λ n. n ≤ length bytes.now) }
        ensures some { IfOk result (λ n. 0 < length bytes.now → 0 < n) }
        ensures held { IfOk result (HoldsAfter bytes.now self.old.unfinished self.new.unfinished) }
        ensures sent { IfOk result (λ n. IsSent (λ s. S.contents s.stream)
            (messages_of_first n bytes.now self.old.unfinished) self.old.socket self.new.socket) }
        // Otherwise some queued bytes were sent and none were added: these bytes may be written
        // again.
        ensures full { IfErr result
            (λ e. error_kind e ≡ ErrorKind.WouldBlock → (self.new.unfinished ≡ self.old.unfinished)
            × Flushed (λ s. S.contents s.stream) self.old.socket self.new.socket) }
        // A line that is not UTF-8 never becomes a message, so it is not to be written again.
        ensures utf8 { IfErr result (λ e. error_kind e ≡ ErrorKind.WouldBlock
            → IsUtf8 (without_return self.old.unfinished)) }
    {
        self.flush_queued()?;
        let taken = self.take(bytes)?;
        self.flush_queued()?;
        Ok(taken)
    }

    /// Sends the page a close frame, if possible, and ends the stream.
    pub fn close(&mut self) {
        self.is_closed = true;
        self.end(CloseCode::Away);
    }

    /// Ends the WebSocket for this reason, in whatever state it is.
    fn end(&mut self, code: CloseCode)
        ensures received { self.new.received ≡ self.old.received }
        ensures unfinished { self.new.unfinished ≡ self.old.unfinished }
        ensures is_closed { self.new.is_closed ≡ self.old.is_closed }
    {
        // A page that has already disconnected receives no close frame.
        let _ = self.socket.close(Some(CloseFrame {
            code,
            reason: Utf8Bytes::from_static(""),
        }));
    }

    /// Reads the next message. Returns false if it is the last; fails with `Interrupted` if it is
    /// not of text.
    fn receive(&mut self) -> io::Result<bool>
        ensures received { IfOk result (λ is_text. is_text ≡ true → (line : List ℕ)
            × Receives (λ s. S.remaining s.stream) line self.old.socket self.new.socket
            × (self.new.received ≡ line ++ 10 ∷ [])) }
        ensures no_text { IfErr result
            (λ _. ReceivesNoText (λ s. S.remaining s.stream) self.old.socket self.new.socket) }
        ensures kept { IfErr result (λ _. self.new.received ≡ self.old.received) }
        ensures last { IfOk result
            (λ is_text. is_text ≡ false → ReceivesEnd (λ s. S.remaining s.stream) self.old.socket) }
        ensures unfinished { self.new.unfinished ≡ self.old.unfinished }
        ensures is_closed { self.new.is_closed ≡ self.old.is_closed }
    {
        let Some(message) = self.read_message()? else {
            return Ok(false);
        };
        if is_control(&message) {
            return Err(io::Error::from(ErrorKind::Interrupted));
        }
        match text_of(message) {
            Some(text) => Ok(self.receive_text(text.as_bytes())),
            None => {
                self.end(CloseCode::Unsupported);
                Ok(false)
            }
        }
    }

    /// Reads the next message. Returns `None` if there is no further one.
    fn read_message(&mut self) -> io::Result<Option<Message>>
        ensures reads { IfOk result (λ found. IfSome found (λ message.
            Reads (λ s. S.remaining s.stream) self.old.socket self.new.socket (Ok message))) }
        ensures last { IfOk result
            (λ found. found ≡ None → ReceivesEnd (λ s. S.remaining s.stream) self.old.socket) }
        ensures no_text { IfErr result
            (λ _. ReceivesNoText (λ s. S.remaining s.stream) self.old.socket self.new.socket) }
        ensures received { self.new.received ≡ self.old.received }
        ensures unfinished { self.new.unfinished ≡ self.old.unfinished }
        ensures is_closed { self.new.is_closed ≡ self.old.is_closed }
    {
        match self.socket.read() {
            Ok(message) => Ok(Some(message)),
            Err(error) => match stream_error(error) {
                Some(error) => Err(error),
                None => Ok(None),
            },
        }
    }

    /// Takes the text of a message. Returns false if it is too long.
    fn receive_text(&mut self, text: &[u8]) -> bool
        ensures short { result ≡ false → 512 < length text.now }
        ensures unfinished { self.new.unfinished ≡ self.old.unfinished }
        ensures is_closed { self.new.is_closed ≡ self.old.is_closed }
        ensures received { result ≡ true → self.new.received ≡ text.now ++ 10 ∷ [] }
        ensures socket { result ≡ true → self.new.socket ≡ self.old.socket }
    {
        if text.len() > LONGEST_LINE {
            self.end(CloseCode::Size);
            return false;
        }
        self.received.receive(text);
        true
    }

    /// Takes bytes from the front, each line that ends becoming a message, until the send queue is
    /// full.
    fn take(&mut self, bytes: &[u8]) -> io::Result<usize>
        ensures bound { IfOk result (λ n. n ≤ length bytes.now) }
        ensures some { IfOk result (λ n. 0 < length bytes.now → 0 < n) }
        ensures held { IfOk result (HoldsAfter bytes.now self.old.unfinished self.new.unfinished) }
        ensures sent { IfOk result (λ n. QueuesAll (λ s. S.contents s.stream)
            (messages_of_first n bytes.now self.old.unfinished) self.old.socket self.new.socket) }
        ensures full { IfErr result (λ e. error_kind e ≡ ErrorKind.WouldBlock
            → (self.new.unfinished ≡ self.old.unfinished) × (self.new.socket ≡ self.old.socket)) }
        ensures utf8 { IfErr result (λ e. error_kind e ≡ ErrorKind.WouldBlock
            → IsUtf8 (without_return self.old.unfinished)) }
    {
        for (taken, byte) in bytes.iter().enumerate() {
            if *byte != b'\n' {
                self.unfinished.push(*byte);
                continue;
            }
            match self.queue_line() {
                Ok(()) => {}
                Err(error) if taken > 0 && error.kind() == ErrorKind::WouldBlock => {
                    return Ok(taken);
                }
                Err(error) => return Err(error),
            }
        }
        Ok(bytes.len())
    }

    /// Queues the line that ends now. Fails with `WouldBlock` if the send queue is full; the line
    /// is not taken then. Fails otherwise if the line is not UTF-8.
    fn queue_line(&mut self) -> io::Result<()>
        ensures held { OnOk result (self.new.unfinished ≡ []) }
        ensures sent { OnOk result (Queues (λ s. S.contents s.stream)
            (without_return self.old.unfinished) self.old.socket self.new.socket) }
        ensures full { IfErr result (λ e. error_kind e ≡ ErrorKind.WouldBlock
            → (self.new.unfinished ≡ self.old.unfinished) × (self.new.socket ≡ self.old.socket)) }
        ensures utf8 { IfErr result (λ e. error_kind e ≡ ErrorKind.WouldBlock
            → IsUtf8 (without_return self.old.unfinished)) }
    {
        let Ok(line) = str::from_utf8(self.unfinished.line()) else {
            return Err(io::Error::from(ErrorKind::BrokenPipe));
        };
        queue_message(&mut self.socket, self.alloc, line)?;
        self.unfinished.end();
        Ok(())
    }

    /// Writes queued bytes until the stream would block.
    fn flush_queued(&mut self) -> io::Result<()>
        ensures sent { Flushed (λ s. S.contents s.stream) self.old.socket self.new.socket }
        ensures unfinished { self.new.unfinished ≡ self.old.unfinished }
        ensures received { self.new.received ≡ self.old.received }
        ensures is_closed { self.new.is_closed ≡ self.old.is_closed }
        ensures prompt { IfErr result (λ e. error_kind e ≢ ErrorKind.WouldBlock) }
    {
        as_written(self.socket.flush())
    }
}

impl<S: Read + Write + Drop> Read for Page<S> {
    /// The same as [`Page::read_lines`].
    fn read(&mut self, room: &mut [u8]) -> io::Result<usize> {
        self.read_lines(room)
    }
}

impl<S: Read + Write + Drop> Write for Page<S> {
    /// The same as [`Page::write_lines`].
    fn write(&mut self, bytes: &[u8]) -> io::Result<usize> {
        self.write_lines(bytes)
    }

    /// Writes queued bytes until the stream would block.
    fn flush(&mut self) -> io::Result<()> {
        self.flush_queued()
    }
}

/// Whether a message is a ping, a pong or a close.
fn is_control(message: &Message) -> bool
    ensures control { result ≡ true → IsControl (content_of message.now) }
    ensures data { result ≡ false → ¬ (IsControl (content_of message.now)) }
{
    matches!(
        message,
        Message::Ping(_) | Message::Pong(_) | Message::Close(_)
    )
}

/// Returns the text of a message, if it is a text message.
fn text_of(message: Message) -> Option<Utf8Bytes>
    ensures some { IfSome result (λ line. content_of message ≡ text line) }
    ensures none { result ≡ None → IsControl (content_of message)
        ⊎ IsForbidden (content_of message) }
{
    match message {
        Message::Text(text) => Some(text),
        _ => None,
    }
}

/// Returns the error of the stream, if the error is one.
fn stream_error(error: Error) -> Option<io::Error>
    ensures some { IfSome result (λ _. IsIo error) }
    ensures cause { IfSome result (λ cause. error ≡ Io cause) }
    ensures none { result ≡ None → ¬ (IsIo error) }
{
    match error {
        Error::Io(error) => Some(error),
        _ => None,
    }
}

/// Queues a message. Fails with `WouldBlock` if the send queue is full; the message is not taken
/// then.
fn queue_message<S: Read + Write + Drop>(
    socket: &mut WebSocket<ReadOnce<S>, NoMask>,
    alloc: Global,
    text: &str,
) -> io::Result<()>
    ensures sent { OnOk result (Queues (λ s. S.contents s.stream) text.now socket.old socket.new) }
    ensures full { IfErr result
        (λ e. error_kind e ≡ ErrorKind.WouldBlock → socket.new ≡ socket.old) }
{
    let Ok(message) = Message::text(alloc, text) else {
        return Err(io::Error::from(ErrorKind::OutOfMemory));
    };
    as_written(socket.write(message))
}

/// Queues an empty ping. Fails with `WouldBlock` if the send queue is full; the ping is not taken
/// then.
fn queue_ping<S: Read + Write + Drop>(socket: &mut WebSocket<ReadOnce<S>, NoMask>) -> io::Result<()>
    ensures sent { OnOk result (QueuesPing (λ s. S.contents s.stream) socket.old socket.new) }
{
    as_written(socket.write(Message::Ping(Bytes::new())))
}

/// Converts the result of a WebSocket write to that of a stream. If only the stream would block,
/// the message is queued and the write has succeeded. `WouldBlock` if the send queue is full and
/// the message was not taken.
fn as_written(written: Result<(), Error>) -> io::Result<()>
    ensures taken { OnOk result (IfErr written IsIo) }
    ensures is_queued { OnOk result
        (IfErr written
        (λ e. (cause : _) → e ≡ Io cause → error_kind cause ≡ ErrorKind.WouldBlock)) }
    ensures full { IfErr result
        (λ e. error_kind e ≡ ErrorKind.WouldBlock → written ≡ Err WriteBufferFull) }
{
    let Err(error) = written else {
        return Ok(());
    };
    let kind = kind_of(&error);
    match stream_error(error) {
        Some(error) if error.kind() == ErrorKind::WouldBlock => Ok(()),
        Some(error) => Err(error),
        None => Err(io::Error::from(kind)),
    }
}

/// Returns the kind of an error that is not the stream's.
fn kind_of(error: &Error) -> ErrorKind
    ensures full { result ≡ ErrorKind.WouldBlock → error.now ≡ WriteBufferFull }
{
    match error {
        Error::WriteBufferFull => ErrorKind::WouldBlock,
        Error::OutOfMemory => ErrorKind::OutOfMemory,
        _ => ErrorKind::BrokenPipe,
    }
}
