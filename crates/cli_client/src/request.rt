//! Requests as text.
ghost use Rattle.std.specs.Prelude.{◌≡◌, ◌++◌, IfOk, OnOk};
ghost use Rattle.cli_client.specs.Requests.{target_part, request_line, host_field, token_field, length_field, request_text};

use std::alloc::{AllocError, Global};

/// A server, and the access token by which it is asked.
#[derive(Clone, Copy)]
pub struct RemoteServer<'a> {
    /// The server's address, as the field `host` names it.
    pub host: &'a str,
    /// The client's access token.
    pub token: &'a str,
}

/// A request's method, target and body.
#[derive(Clone, Copy)]
pub struct ClientRequest<'a> {
    pub method: &'a str,
    pub target: &'a str,
    pub body: &'a [u8],
}

fn push_target(text: &mut Vec<u8>, call: &ClientRequest<'_>) -> Result<(), AllocError>
    ensures { OnOk result (text.new.items ≡ text.old.items ++ target_part call.now) }
{
    text.extend_from_slice(b" ")?;
    text.extend_from_slice(call.target.as_bytes())?;
    text.extend_from_slice(b" HTTP/1.1\r\n")
}

fn push_request_line(text: &mut Vec<u8>, call: &ClientRequest<'_>) -> Result<(), AllocError>
    ensures { OnOk result (text.new.items ≡ text.old.items ++ request_line call.now) }
{
    text.extend_from_slice(call.method.as_bytes())?;
    push_target(text, call)
}

fn push_host(text: &mut Vec<u8>, server: &RemoteServer<'_>) -> Result<(), AllocError>
    ensures { OnOk result (text.new.items ≡ text.old.items ++ host_field server.now) }
{
    text.extend_from_slice(b"host: ")?;
    text.extend_from_slice(server.host.as_bytes())?;
    text.extend_from_slice(b"\r\n")
}

fn push_token(text: &mut Vec<u8>, server: &RemoteServer<'_>) -> Result<(), AllocError>
    ensures { OnOk result (text.new.items ≡ text.old.items ++ token_field server.now) }
{
    text.extend_from_slice(b"authorization: Bearer ")?;
    text.extend_from_slice(server.token.as_bytes())?;
    text.extend_from_slice(b"\r\n")
}

fn push_length(text: &mut Vec<u8>, call: &ClientRequest<'_>) -> Result<(), AllocError>
    ensures { OnOk result (text.new.items ≡ text.old.items ++ length_field call.now) }
{
    let digits = call.body.len().to_string(*text.allocator())?;
    text.extend_from_slice(b"content-length: ")?;
    text.extend_from_slice(digits.as_bytes())?;
    text.extend_from_slice(b"\r\n")
}

/// The text of a request: its head (RFC 9112, sections 3 and 5) and its body.
pub fn request_text(
    alloc: Global,
    server: &RemoteServer<'_>,
    call: &ClientRequest<'_>,
) -> Result<Vec<u8>, AllocError>
    ensures { IfOk result (λ text. text.items ≡ request_text server.now call.now) }
{
    let mut text = Vec::with_capacity(alloc, call.body.len())?;
    push_request_line(&mut text, call)?;
    push_host(&mut text, server)?;
    push_token(&mut text, server)?;
    push_length(&mut text, call)?;
    text.extend_from_slice(b"\r\n")?;
    text.extend_from_slice(call.body)?;
    Ok(text)
}
