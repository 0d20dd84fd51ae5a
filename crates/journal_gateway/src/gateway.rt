//! A cluster's members, asked in turn.
ghost use Rattle.std.specs.Prelude.{◌≡◌, ◌≢◌, length, None, IfOk, IfErr};
ghost use Rattle.journal_gateway.specs.Meanings.{next_member};
ghost use Rattle.journal_gateway.specs.declared.fault.GatewayFault.TheVariants.{Refused};

use crate::dial::Dial;
use crate::exchange::{Exchange, GatewayReply, make_exchange};
use crate::fault::GatewayFault;
use crate::meaning::{ReplyMeaning, meaning_of, needs_token, next_member};
use crate::token::{TOKEN_PATH, read_token, token_request};
use crate::user::GatewayUser;
use std::alloc::Global;

/// A cluster's gateway: its members, one of which is asked until it fails, over a connection that is kept; and the token
/// of a user, where there is one.
#[derive(Drop)]
pub struct Gateway<'a, D: Dial> {
    alloc: Global,
    dial: D,
    members: &'a [String],
    user: Option<GatewayUser<'a>>,
    /// How many times a request is sent at the most.
    attempts: u32,
    /// Which member is asked.
    current: usize,
    stream: Option<D::Stream>,
    token: Option<String>,
}

impl<'a, D: Dial> Gateway<'a, D> {
    /// The gateway of these members, none of which was asked yet. A request is sent so many times at the most.
    pub fn new(
        alloc: Global,
        dial: D,
        members: &'a [String],
        user: Option<GatewayUser<'a>>,
        attempts: u32,
    ) -> Gateway<'a, D> {
        Gateway {
            alloc,
            dial,
            members,
            user,
            attempts,
            current: 0,
            stream: None,
            token: None,
        }
    }

    /// Posts a body to a path until a member answers with 200, and returns the answer's body. What was posted may have
    /// come more than once, and late.
    ///
    /// # Errors
    ///
    /// Why the last member that was asked gave no answer: what was posted may have been done, or be done yet.
    pub fn post(&mut self, path: &str, body: &[u8]) -> Result<Vec<u8>, GatewayFault> {
        let mut fault = GatewayFault::NoConnection;
        for attempt in 0..self.attempts {
            if attempt > 0 {
                self.dial.pause();
            }
            match self.try_post(path, body) {
                Ok(answer) => return Ok(answer),
                Err(GatewayFault::NoMemory) => return Err(GatewayFault::NoMemory),
                Err(found) => fault = found,
            }
        }
        Err(fault)
    }

    /// Posts a body once, with a token that is asked for first where there is none.
    ///
    /// # Errors
    ///
    /// Why there is no answer.
    fn try_post(&mut self, path: &str, body: &[u8]) -> Result<Vec<u8>, GatewayFault> {
        if needs_token(self.user.is_some(), self.token.is_some()) {
            self.authenticate()?;
        }
        let reply = self.ask(path, body)?;
        self.judge(reply)
    }

    /// The answer in a response. By any other response the next member is the one that is asked, or a new token is asked
    /// for.
    ///
    /// # Errors
    ///
    /// `Refused` with its status.
    fn judge(&mut self, reply: GatewayReply) -> Result<Vec<u8>, GatewayFault>
        ensures answer { IfOk result (λ answer. (reply.status ≡ 200) × (answer.items ≡ reply.body.items)) }
        ensures refused { IfErr result (λ fault. (reply.status ≢ 200) × (fault ≡ Refused reply.status)) }
    {
        let GatewayReply { status, body } = reply;
        match meaning_of(status) {
            ReplyMeaning::Answer => return Ok(body),
            ReplyMeaning::EndedToken if self.token.is_some() => {
                self.token = None;
                self.stream = None;
            }
            ReplyMeaning::EndedToken | ReplyMeaning::Undecided => self.pass_on(),
        }
        Err(GatewayFault::Refused(status))
    }

    /// Asks for the user's token.
    ///
    /// # Errors
    ///
    /// Why there is none.
    fn authenticate(&mut self) -> Result<(), GatewayFault> {
        let Some(user) = self.user else {
            return Ok(());
        };
        let body = token_request(self.alloc, user.name, user.password)?;
        let reply = self.ask(TOKEN_PATH, &body)?;
        let answer = self.judge(reply)?;
        match read_token(self.alloc, &answer) {
            Ok(token) => {
                self.token = Some(token);
                Ok(())
            }
            Err(fault) => {
                self.pass_on();
                Err(fault)
            }
        }
    }

    /// Sends a request to the member whose turn it is, over the connection that is open, or a new one.
    ///
    /// # Errors
    ///
    /// Why there is no response; it is the next member's turn then.
    fn ask(&mut self, path: &str, body: &[u8]) -> Result<GatewayReply, GatewayFault> {
        match self.ask_current(path, body) {
            Ok(reply) => Ok(reply),
            Err(fault) => {
                self.pass_on();
                Err(fault)
            }
        }
    }

    /// Sends a request to the member whose turn it is. The connection is kept where it can be used again.
    ///
    /// # Errors
    ///
    /// Why there is no response.
    fn ask_current(&mut self, path: &str, body: &[u8]) -> Result<GatewayReply, GatewayFault> {
        let Some(host) = self.members.get(self.current) else {
            return Err(GatewayFault::NoConnection);
        };
        let mut stream = match self.stream.take() {
            Some(stream) => stream,
            None => self.dial.dial(host.as_str())?,
        };
        let token = match &self.token {
            Some(token) => Some(token.as_str()),
            None => None,
        };
        let Exchange { reply, is_kept } = make_exchange(
            self.alloc,
            &mut stream,
            path,
            host.as_str(),
            token,
            body,
        )?;
        if is_kept {
            self.stream = Some(stream);
        }
        Ok(reply)
    }

    /// From now on it is the next member's turn, over a new connection.
    fn pass_on(&mut self)
        ensures current { self.new.current ≡ next_member self.old.current (length self.old.members.now) }
        ensures stream { self.new.stream ≡ None }
        ensures token { self.new.token ≡ self.old.token }
    {
        self.stream = None;
        self.current = next_member(self.current, self.members.len());
    }
}
