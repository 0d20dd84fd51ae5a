//! Requests, as they are written.
ghost use Rattle.std.specs.Prelude.{◌≡◌, ◌++◌, OnOk, length, option_map};
ghost use Rattle.journal_gateway.specs.Requests.{head_text, behind_head, request_text};

use crate::fault::GatewayFault;
use http1::{BodySize, Client, Header};

/// Appends the head of a request to the text that a connection sends.
fn push_head<'a>(
    client: &mut Client,
    text: &mut Vec<u8>,
    path: &str,
    host: &'a str,
    token: Option<&'a str>,
    size: usize,
) -> Result<(), GatewayFault>
    ensures text { OnOk result (text.new.items
        ≡ text.old.items ++ head_text client.old path.now host.now (option_map (λ token. token.now) token.entry) size) }
    ensures next { OnOk result (client.new
        ≡ behind_head client.old host.now (option_map (λ token. token.now) token.entry) size) }
{
    let host = Header {
        name: b"host",
        value: host.as_bytes(),
    };
    let size = BodySize::Known(size as u64);
    match token {
        Some(token) => {
            let token = Header {
                name: b"authorization",
                value: token.as_bytes(),
            };
            client.write_request(text, b"POST", path.as_bytes(), &[host, token], size)?;
        }
        None => client.write_request(text, b"POST", path.as_bytes(), &[host], size)?,
    }
    Ok(())
}

/// Appends a request to the text that a connection sends: a POST of a body to a path of the member that the field `host`
/// names, with a user's token where there is one.
///
/// # Errors
///
/// `NotSent` where its parts may not stand in one, `NoMemory`.
pub(crate) fn push_request<'a>(
    client: &mut Client,
    text: &mut Vec<u8>,
    path: &str,
    host: &'a str,
    token: Option<&'a str>,
    body: &[u8],
) -> Result<(), GatewayFault>
    ensures { OnOk result (text.new.items
        ≡ text.old.items ++ request_text client.old path.now host.now (option_map (λ token. token.now) token.entry) body.now) }
{
    push_head(client, text, path, host, token, body.len())?;
    client.write_data(text, body)?;
    client.write_end(text, &[])?;
    Ok(())
}
