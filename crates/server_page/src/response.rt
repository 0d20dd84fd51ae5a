//! The responses to requests for a file.
ghost use Rattle.std.specs.Prelude.{◌≡◌, IfOk, OnOk, [], map};
ghost use Rattle.http_header.specs.FieldValue.{plain_value};
ghost use Rattle.server_page.specs.PageSettings.{bytes_of};
ghost use Rattle.server_page.specs.Response.{Responds, Says, field, fields_of, version_of};
ghost use Rattle.server_page.specs.Tag.{tag_of};
ghost use Rattle.server_page.specs.declared.file.File.{File};
ghost use Rattle.server_page.specs.declared.page_settings.PageSettings.{PageSettings};
ghost use Rattle.server_page.specs.declared.file_reply.FileReply.TheVariants.{Whole, Unchanged, WrongMethod};

use crate::file::File;
use crate::file_reply::{FileReply, file_reply_of};
use crate::page::Page;
use bytes::Bytes;
use http::header::{
    ALLOW, CACHE_CONTROL, CONTENT_SECURITY_POLICY, CONTENT_TYPE, ETAG, REFERRER_POLICY,
    X_CONTENT_TYPE_OPTIONS,
};
use http::{HeaderMap, HeaderValue, Response, StatusCode};
use http_body_util::Full;
use server_responses::{HttpResult, json_response, set_field, with_field};
use std::alloc::{AllocError, Global};

/// Sets the header fields of a file's version: a cache has to validate it.
fn put_version(alloc: Global, headers: &mut HeaderMap, tag: &[u8]) -> Result<(), AllocError>
    requires { headers.old ≡ [] }
    ensures { OnOk result (headers.new ≡ map field (version_of tag.now)) }
{
    let Ok(tag) = HeaderValue::from_bytes(alloc, tag) else {
        return Err(AllocError);
    };
    set_field(headers, ETAG, tag)?;
    set_field(headers, CACHE_CONTROL, HeaderValue::from_static("no-cache"))
}

/// Sets a file's media type, and what a browser may do with it.
fn put_type(
    alloc: Global,
    headers: &mut HeaderMap,
    page: &Page,
    file: File,
) -> Result<(), AllocError>
    requires { headers.old ≡ map field (version_of (tag_of (bytes_of page.now.settings file))) }
    ensures { OnOk result (headers.new ≡ map field (fields_of page.now.settings Whole file)) }
{
    let media_type = HeaderValue::from_static(file.media_type());
    let Ok(policy) = HeaderValue::from_bytes(alloc, page.settings.policy.as_slice()) else {
        return Err(AllocError);
    };
    set_field(headers, CONTENT_TYPE, media_type)?;
    set_field(
        headers,
        X_CONTENT_TYPE_OPTIONS,
        HeaderValue::from_static("nosniff"),
    )?;
    set_field(
        headers,
        REFERRER_POLICY,
        HeaderValue::from_static("no-referrer"),
    )?;
    set_field(headers, CONTENT_SECURITY_POLICY, policy)
}

/// The file (200).
fn whole(alloc: Global, page: &Page, file: File) -> HttpResult
    ensures { IfOk result (Says page.now.settings Whole file) }
{
    let mut response = Response::new(alloc, Full::new(page.bytes(alloc, file)?));
    put_version(alloc, response.headers_mut(), page.tag(file))?;
    put_type(alloc, response.headers_mut(), page, file)?;
    Ok(response)
}

/// The client has the file as it is (304).
fn not_modified(alloc: Global, page: &Page, file: File) -> HttpResult
    ensures { IfOk result (Says page.now.settings Unchanged file) }
{
    let mut response = Response::new(alloc, Full::new(Bytes::from_static(b"")));
    *response.status_mut() = StatusCode::NOT_MODIFIED;
    put_version(alloc, response.headers_mut(), page.tag(file))?;
    Ok(response)
}

/// A file can only be read (405).
fn wrong_method(alloc: Global) -> HttpResult
    ensures { (settings : PageSettings) (file : File) → IfOk result (Says settings WrongMethod file) }
{
    let body = Bytes::from_static(b"{\"error\":\"method\"}");
    let response = json_response(alloc, StatusCode::METHOD_NOT_ALLOWED, body)?;
    with_field(response, ALLOW, HeaderValue::from_static("GET, HEAD"))
}

/// The response of this kind for a file.
fn response_of(alloc: Global, told: FileReply, page: &Page, file: File) -> HttpResult
    ensures { IfOk result (Says page.now.settings told file) }
{
    match told {
        FileReply::Whole => whole(alloc, page, file),
        FileReply::Unchanged => not_modified(alloc, page, file),
        FileReply::WrongMethod => wrong_method(alloc),
    }
}

impl Page {
    /// The response to a request for a file with this method and these header fields. `HEAD` gets
    /// the same as `GET`, and the server sends it without the body.
    ///
    /// # Errors
    ///
    /// Out of memory.
    pub fn respond(
        &self,
        alloc: Global,
        file: File,
        method: &[u8],
        headers: &HeaderMap,
    ) -> HttpResult
        ensures { IfOk result (Responds self.now.settings method.now headers.now file) }
    {
        let told = file_reply_of(method, headers, self.tag(file));
        response_of(alloc, told, self, file)
    }
}
