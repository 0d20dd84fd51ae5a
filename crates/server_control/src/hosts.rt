//! The host names of a control port.
ghost use Rattle.std.specs.Prelude.{◌≡◌, ◌++◌, map, option_map, IfOk, string_bytes};
ghost use Rattle.server_control.specs.Hosts.{same_name, authorities, hosts_of, AreHosts, is_known};

use std::alloc::{AllocError, Global};

/// The hosts that a request may name (RFC 9110, section 7.2).
#[derive(Drop)]
pub enum Hosts {
    /// Any: the listener has no name that a page could use, such as a Unix socket.
    Any,
    /// These alone.
    Named(Vec<String>),
}

/// Whether two names are the same, in any case of letters (RFC 9110, sections 4.2.3 and 5.1).
pub(crate) fn is_name(name: &[u8], other: &[u8]) -> bool
    ensures { result ≡ same_name name.now other.now }
{
    name.eq_ignore_ascii_case(other)
}

/// Appends a name, alone and with the port.
fn push_name(
    alloc: Global,
    names: &mut Vec<String>,
    name: &str,
    port: u16,
) -> Result<(), AllocError>
    ensures { IfOk result (λ _. map string_bytes names.new.items ≡ map string_bytes names.old.items ++ authorities name.now port) }
{
    names.push(String::from_str(alloc, name)?)?;
    names.push(format!(in alloc; "{name}:{port}")?)?;
    Ok(())
}

impl Hosts {
    /// The hosts of a port that listens at one address and was reached at another, which is its own
    /// where it listens at all addresses of the machine; each as it stands in a URI, alone or with
    /// the port. `localhost` is one of them, and so is the configured name.
    ///
    /// # Errors
    ///
    /// Out of memory.
    pub fn new(
        alloc: Global,
        listening: &str,
        reached: &str,
        port: u16,
        name: Option<&str>,
    ) -> Result<Hosts, AllocError>
        ensures { IfOk result (λ hosts. AreHosts hosts (hosts_of listening.now reached.now port (option_map (λ name. name.now) name.entry))) }
    {
        let mut names = Vec::new(alloc);
        push_name(alloc, &mut names, listening, port)?;
        push_name(alloc, &mut names, reached, port)?;
        push_name(alloc, &mut names, "localhost", port)?;
        if let Some(name) = name {
            push_name(alloc, &mut names, name, port)?;
        }
        Ok(Hosts::Named(names))
    }
}

/// Whether one of the names is this host.
pub(crate) fn is_known(names: &[String], host: &[u8]) -> bool
    ensures { result ≡ is_known (map string_bytes names.now) host.now }
{
    for name in names {
        if is_name(name.as_bytes(), host) {
            return true;
        }
    }
    false
}
