//! The pages of the control port, and their answers.
ghost use Rattle.std.specs.Prelude.{◌≡◌};
ghost use Rattle.server_control.specs.Pages.{page_of, method_of, method_name, methods_of, is_head, as_get, answer_at};
ghost use Rattle.server_control.specs.Pages.{answer_of, status_of};

/// A page of the control port.
#[derive(Clone, Copy, PartialEq, Eq)]
enum ControlPage {
    /// Whether the server serves.
    Health,
    /// The metrics.
    Metrics,
    /// The request to stop.
    Stop,
}

/// A method that a page of the control port takes.
#[derive(Clone, Copy, Debug, PartialEq, Eq)]
pub enum ControlMethod {
    /// It reads. HEAD is answered as it is.
    Get,
    /// It changes the server.
    Post,
}

/// An answer of the control port.
#[derive(Clone, Copy, Debug, PartialEq, Eq)]
pub enum ControlAnswer {
    /// The server serves.
    Healthy,
    /// It doesn't serve yet, or not any more.
    Unready,
    /// The metrics.
    Metrics,
    /// The server stops from now on.
    Stops,
    /// The request can't be read.
    Unread,
    /// A page in a browser sends it, or it is for another host.
    Forbidden,
    /// There is nothing at that path.
    NotFound,
    /// The path takes another method, which is this one.
    NotAllowed(ControlMethod),
}

impl ControlPage {
    fn of(path: &[u8]) -> Option<ControlPage>
        ensures { result ≡ page_of path.now }
    {
        if path == b"/healthz".as_slice() {
            Some(ControlPage::Health)
        } else if path == b"/metrics".as_slice() {
            Some(ControlPage::Metrics)
        } else if path == b"/stop".as_slice() {
            Some(ControlPage::Stop)
        } else {
            None
        }
    }

    /// The method that the page takes.
    fn method(self) -> ControlMethod
        ensures { result ≡ method_of self }
    {
        match self {
            ControlPage::Health | ControlPage::Metrics => ControlMethod::Get,
            ControlPage::Stop => ControlMethod::Post,
        }
    }

    fn answer(self, serves: bool) -> ControlAnswer
        ensures { result ≡ answer_at self serves }
    {
        match self {
            ControlPage::Health if serves => ControlAnswer::Healthy,
            ControlPage::Health => ControlAnswer::Unready,
            ControlPage::Metrics => ControlAnswer::Metrics,
            ControlPage::Stop => ControlAnswer::Stops,
        }
    }
}

impl ControlMethod {
    /// Its name, as requests have it (RFC 9110, section 9.1).
    pub(crate) fn name(self) -> &'static str
        ensures { result.now ≡ method_name self }
    {
        match self {
            ControlMethod::Get => "GET",
            ControlMethod::Post => "POST",
        }
    }

    /// The methods that a page takes which takes this one, as `allow` lists them (RFC 9110, section 10.2.1).
    pub(crate) fn methods(self) -> &'static str
        ensures { result.now ≡ methods_of self }
    {
        match self {
            ControlMethod::Get => "GET, HEAD",
            ControlMethod::Post => "POST",
        }
    }
}

/// Whether a method is HEAD.
pub(crate) fn is_head(method: &[u8]) -> bool
    ensures { result ≡ is_head method.now }
{
    method == b"HEAD".as_slice()
}

/// The method as which a method is answered: HEAD as GET (RFC 9110, section 9.3.2).
fn as_get(method: &[u8]) -> &[u8]
    ensures { result.now ≡ as_get method.now }
{
    if is_head(method) { b"GET" } else { method }
}

/// The answer to a method and a path, where the server serves or doesn't.
pub fn answer_for(method: &[u8], path: &[u8], serves: bool) -> ControlAnswer
    ensures { result ≡ answer_of method.now path.now serves }
{
    match ControlPage::of(path) {
        Some(page) => {
            if as_get(method) == page.method().name().as_bytes() {
                page.answer(serves)
            } else {
                ControlAnswer::NotAllowed(page.method())
            }
        }
        None => ControlAnswer::NotFound,
    }
}

impl ControlAnswer {
    /// Its status (RFC 9110, section 15).
    pub fn status(self) -> u16
        ensures { result ≡ status_of self }
    {
        match self {
            ControlAnswer::Healthy | ControlAnswer::Metrics => 200,
            ControlAnswer::Stops => 202,
            ControlAnswer::Unread => 400,
            ControlAnswer::Forbidden => 403,
            ControlAnswer::NotFound => 404,
            ControlAnswer::NotAllowed(_) => 405,
            ControlAnswer::Unready => 503,
        }
    }
}
