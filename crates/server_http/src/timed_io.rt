//! A socket with deadlines, which fails where its peer takes too long.
ghost use Rattle.std.specs.Prelude.{◌≡◌};
ghost use Rattle.futures.specs.Task.{Keeps};

use crate::head_timer::HeadTimer;
use crate::server_conn::ServerConn;
use crate::write_progress::WriteProgress;
use futures::Future;
use futures::task::{Context, Poll};
use server_admission::{HeadPhase, is_answering};
use std::alloc::AllocError;
use std::io;
use tokio::io::{AsyncRead, AsyncWrite};
use tokio::sync::OwnedNotified;

/// A socket whose reads fail where a head takes longer than `HEAD_SECONDS` from its first byte,
/// where none begins for `IDLE_SECONDS`, or where the connection is told to close while it waits
/// for one; and whose writes fail where too little of a response is written.
#[derive(Drop)]
pub struct TimedIo<I, P> {
    io: I,
    conn: P,
    close_notice: OwnedNotified,
    timer: HeadTimer,
    /// How many bytes of a response were written, until all of it is.
    written: u64,
    sending: Option<WriteProgress>,
}

impl<I: Drop, P: ServerConn> TimedIo<I, P> {
    /// A socket of which nothing was read.
    ///
    /// # Errors
    ///
    /// There are too many references.
    pub fn new(io: I, conn: P) -> Result<TimedIo<I, P>, AllocError> {
        Ok(TimedIo {
            io,
            close_notice: conn.close_notice()?,
            conn,
            timer: HeadTimer::new(),
            written: 0,
            sending: None,
        })
    }

    /// Begins the time of a head, or that of an idle connection, unless it runs already. A
    /// connection isn't idle while a request is answered or its response is written.
    fn begin(&mut self, is_head: bool)
        ensures { self.new.io ≡ self.old.io }
    {
        let pace = self.conn.progress();
        if is_answering(pace) || (!is_head && self.is_writing()) {
            self.timer.stop();
            return;
        }
        let phase = HeadPhase { pace, is_head };
        if self.timer.goes_on(phase) {
            return;
        }
        if !is_head {
            self.conn.become_idle();
        }
        self.timer.start(&self.conn, phase);
    }

    /// Whether the running deadline is over, or the connection was told to close.
    fn is_over(&mut self, cx: &mut Context<'_>) -> bool
        ensures same { self.new.io ≡ self.old.io }
        ensures kept { Keeps cx.old cx.new }
    {
        self.timer.runs()
            && (self.timer.is_over(&self.conn, cx) || self.close_notice.poll(cx).is_ready())
    }

    /// Whether a response isn't written whole.
    fn is_writing(&self) -> bool {
        self.written > 0 || self.sending.is_some()
    }

    /// So many bytes of a response were written.
    fn count_written(&mut self, count: usize)
        ensures { self.new.io ≡ self.old.io }
    {
        self.written = self.written.saturating_add(count as u64);
        if let Some(sending) = &mut self.sending {
            sending.note_progress();
        }
    }

    /// Whether too little of a response is written, of which nothing can be written now.
    fn is_too_slow(&mut self, cx: &mut Context<'_>) -> bool
        ensures same { self.new.io ≡ self.old.io }
        ensures kept { Keeps cx.old cx.new }
    {
        if self.sending.is_none() {
            self.sending = WriteProgress::new(&self.conn);
        }
        match &mut self.sending {
            Some(sending) => sending.is_late(&self.conn, self.written, cx),
            None => false,
        }
    }

    /// The response is written whole, and the connection waits for a request.
    fn finish_write(&mut self)
        ensures { self.new.io ≡ self.old.io }
    {
        self.written = 0;
        self.sending = None;
        self.begin(false);
    }
}

impl<I: AsyncRead, P: ServerConn> AsyncRead for TimedIo<I, P> {
    ghost reads = { λ a xs b. I.reads a.io xs b.io };

    ghost is_at_end = { λ r. I.is_at_end r.io };

    ghost reads_nothing = { λ r. I.reads_nothing r.io };

    ghost reads_in_order = { λ a xs b ys c. I.reads_in_order a.io xs b.io ys c.io };

    fn poll_read(&mut self, cx: &mut Context<'_>, buf: &mut [u8]) -> Poll<io::Result<usize>> {
        match self.io.poll_read(cx, buf) {
            Poll::Ready(Ok(count)) => {
                if count > 0 {
                    self.begin(true);
                }
                Poll::Ready(Ok(count))
            }
            Poll::Ready(Err(error)) => Poll::Ready(Err(error)),
            Poll::Pending => {
                self.begin(false);
                if self.is_over(cx) {
                    return Poll::Ready(Err(io::ErrorKind::TimedOut.into()));
                }
                Poll::Pending
            }
        }
    }
}

impl<I: AsyncWrite, P: ServerConn> AsyncWrite for TimedIo<I, P> {
    ghost writes = { λ a xs b. I.writes a.io xs b.io };

    ghost is_flushed = { λ w. I.is_flushed w.io };

    ghost is_shut_down = { λ w. I.is_shut_down w.io };

    ghost is_full = { λ w. I.is_full w.io };

    ghost writes_nothing = { λ w. I.writes_nothing w.io };

    ghost writes_in_order = { λ a xs b ys c. I.writes_in_order a.io xs b.io ys c.io };

    fn poll_write(&mut self, cx: &mut Context<'_>, buf: &[u8]) -> Poll<io::Result<usize>> {
        match self.io.poll_write(cx, buf) {
            Poll::Ready(Ok(count)) => {
                self.count_written(count);
                Poll::Ready(Ok(count))
            }
            Poll::Ready(Err(error)) => Poll::Ready(Err(error)),
            Poll::Pending => {
                if self.is_too_slow(cx) {
                    return Poll::Ready(Err(io::ErrorKind::TimedOut.into()));
                }
                Poll::Pending
            }
        }
    }

    fn poll_flush(&mut self, cx: &mut Context<'_>) -> Poll<io::Result<()>> {
        match self.io.poll_flush(cx) {
            Poll::Ready(Ok(())) => {
                self.finish_write();
                if self.is_over(cx) {
                    return Poll::Ready(Err(io::ErrorKind::TimedOut.into()));
                }
                Poll::Ready(Ok(()))
            }
            Poll::Ready(Err(error)) => Poll::Ready(Err(error)),
            Poll::Pending => Poll::Pending,
        }
    }

    fn poll_shutdown(&mut self, cx: &mut Context<'_>) -> Poll<io::Result<()>> {
        self.io.poll_shutdown(cx)
    }
}
