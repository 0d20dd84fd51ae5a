//! Reads a request body.
ghost use Rattle.std.specs.Prelude.{◌≡◌, ◌≢◌, ◌⊎◌, ◌++◌, None, Some, [], Ok, IfSome, option_map};
ghost use Rattle.futures.specs.Task.{Covers, Keeps};
ghost use Rattle.futures.specs.Poll.{IfReady, OnPending};
ghost use Rattle.server_admission.specs.Arrival.{arrived_of};
ghost use Rattle.server_admission.specs.declared.arrival.Arrived.TheVariants.{TooLong, NoMemory};
ghost use Rattle.server_http.specs.Arrives.{ArrivesBy, GoesOn, LeavesArrivals, MayArrive, Precedes};
ghost use Rattle.server_admission.specs.declared.arrival.BodyEnd.TheVariants as TheEnd;
ghost use Rattle.server_admission.specs.declared.arrival.BodyEnd.TheVariants.{Over};

use bytes::{Bytes, BytesQueue};
use futures::task::{Context, Poll};
use futures::{Future, ready};
use http_body::{Body, Frame};
use hyper::Error;
use hyper::body::Incoming;
use server_admission::{Arrived, BodyEnd, Piece, load_bytes_of};
use std::alloc::Global;

/// How many pieces are read in a row before other tasks may run.
const PIECES: usize = 32;

/// The future of a body: its bytes, within the limit of a body. One that is too long is discarded.
#[derive(Drop)]
pub struct BodyReader<I> {
    body: Incoming<I>,
    alloc: Global,
    /// What came; none, where the body is discarded.
    kept: Option<BytesQueue>,
    /// How many bytes came.
    length: usize,
}

impl<I: Drop> BodyReader<I> {
    /// Reads a body of which nothing was read.
    pub fn new(alloc: Global, body: Incoming<I>) -> BodyReader<I>
        ensures body { result.body ≡ body }
        ensures kept { result.kept ≡ Some [] }
        ensures length { result.length ≡ 0 }
    {
        BodyReader {
            body,
            alloc,
            kept: Some(BytesQueue::new(alloc)),
            length: 0,
        }
    }

    /// How many bytes the body counts as.
    pub fn load_bytes(&self) -> usize {
        load_bytes_of(self.body.size_hint().exact())
    }

    /// From now on the body is read and discarded.
    pub fn discard(&mut self) {
        self.kept = None;
    }

    /// Takes a piece of the body; its end, where nothing more is to be read.
    fn push_frame(&mut self, frame: Frame<Bytes>) -> Option<BodyEnd>
        ensures body { self.new.body ≡ self.old.body }
        ensures next { result ≡ None → Precedes frame self.old self.new }
        ensures ends { IfSome result (λ end. (end ≢ Over)
            × ArrivesBy self.old.kept self.old.length [] (Some (Ok frame)) (arrived_of end [])) }
    {
        let Ok(data) = frame.into_data() else {
            return None;
        };
        let piece = Piece::at(self.length, data.len());
        self.length = self.length.saturating_add(data.len());
        match piece {
            Piece::Kept => self.push_piece(data),
            Piece::Passed => {
                self.kept = None;
                None
            }
            Piece::Refused => Some(BodyEnd::Refused),
        }
    }

    /// Stores a piece, unless the body is discarded.
    fn push_piece(&mut self, piece: Bytes) -> Option<BodyEnd>
        ensures body { self.new.body ≡ self.old.body }
        ensures length { self.new.length ≡ self.old.length }
        ensures kept { result ≡ None → self.new.kept ≡ option_map (λ first. first ++ piece) self.old.kept }
        ensures ends { IfSome result (λ end. end ≡ TheEnd.NoMemory) }
    {
        match self.kept.as_mut()?.push(piece) {
            Ok(()) => None,
            Err(_) => Some(BodyEnd::NoMemory),
        }
    }

    /// Takes what comes next of the body. The body as it arrived, where nothing more is to be read.
    fn push_next(&mut self, next: Option<Result<Frame<Bytes>, Error>>) -> Option<Arrived>
        ensures body { self.new.body ≡ self.old.body }
        ensures arrived { IfSome result (ArrivesBy self.old.kept self.old.length [] next) }
        ensures goes { result ≡ None → GoesOn next self.old self.new }
    {
        let end = match next {
            None => Some(BodyEnd::Over),
            Some(Err(error)) => Some(end_of(&error)),
            Some(Ok(frame)) => self.push_frame(frame),
        };
        match end {
            Some(end) => Some(self.arrival(end)),
            None => None,
        }
    }

    /// Reads what comes next of the body. The body as it arrived, where nothing more is to be read.
    fn poll_piece(&mut self, cx: &mut Context<'_>) -> Poll<Option<Arrived>>
        ensures arrived { IfReady result (λ o. IfSome o (MayArrive self.old)) }
        ensures goes { IfReady result (λ o. o ≡ None → LeavesArrivals self.old self.new) }
        ensures same { OnPending result (LeavesArrivals self.old self.new) }
        ensures registered { OnPending result (Covers cx.new (λ _. ⊥)) }
        ensures kept { Keeps cx.old cx.new }
    {
        match self.body.poll_frame(cx) {
            Poll::Pending => Poll::Pending,
            Poll::Ready(next) => Poll::Ready(self.push_next(next)),
        }
    }

    /// The body, once its reading ended so. A discarded one is too long, or its request may not
    /// wait, and then the result isn't used. Where there is no memory to join what was stored, it
    /// is `NoMemory`.
    fn arrival(&mut self, end: BodyEnd) -> Arrived
        ensures joined { end ≡ Over → IfSome self.old.kept
            (λ kept. (result ≡ arrived_of Over kept) ⊎ (result ≡ NoMemory)) }
        ensures passed { end ≡ Over → self.old.kept ≡ None → result ≡ TooLong }
        ensures unfinished { end ≢ Over → result ≡ arrived_of end [] }
        ensures same { self.new.body ≡ self.old.body }
    {
        if end != BodyEnd::Over {
            return Arrived::of(end, Bytes::new());
        }
        let Some(kept) = self.kept.take() else {
            return Arrived::TooLong;
        };
        match join(self.alloc, kept) {
            Some(body) => Arrived::of(BodyEnd::Over, body),
            None => Arrived::NoMemory,
        }
    }
}

/// These pieces as one; none, where there is no memory to join them.
fn join(alloc: Global, mut pieces: BytesQueue) -> Option<Bytes>
    ensures { IfSome result (λ whole. whole ≡ pieces) }
{
    let length = pieces.len();
    pieces.split_to(alloc, length).ok()
}

/// How the reading of a body ends with this error.
fn end_of(error: &Error) -> BodyEnd
    ensures { (result ≡ TheEnd.NoMemory) ⊎ (result ≡ TheEnd.Broken) }
{
    if error.is_out_of_memory() {
        BodyEnd::NoMemory
    } else {
        BodyEnd::Broken
    }
}

impl<I: Drop> Future for BodyReader<I> {
    type Output = Arrived;

    ghost gives = { MayArrive };

    fn poll(&mut self, cx: &mut Context<'_>) -> Poll<Arrived> {
        for _ in 0..PIECES {
            if let Some(arrived) = ready!(self.poll_piece(cx)) {
                return Poll::Ready(arrived);
            }
        }
        cx.yield_now()
    }
}
