//! What a browser may load for the page.
ghost use Rattle.std.specs.Prelude.{◌≡◌, ◌++◌, option_map, IfOk, OnOk};
ghost use Rattle.server_settings.specs.Policy.{policy_for, policy_given, policy_of, tile_source};
ghost use Rattle.server_settings.specs.Settings.{page_of};
ghost use Rattle.mds_text.specs.View.{view};

use crate::address::origin_of;
use crate::settings::page_of;
use mds_text::{TextFault, Tree, read_tree};
use std::alloc::{AllocError, Global};

/// The policy up to the sources of pictures that are the page's own.
const FRONT: &str = "default-src 'none'; script-src 'self'; worker-src 'self'; style-src 'self'; \
    img-src 'self' data:";

/// The rest of it.
const BACK: &str =
    "; connect-src 'self'; form-action 'none'; base-uri 'none'; frame-ancestors 'none'";

/// Adds the origin of the tiles, if there are tiles.
fn add_source(policy: &mut Vec<u8>, tiles: Option<&str>) -> Result<(), AllocError>
    ensures { OnOk result (policy.new.items ≡ policy.old.items ++ tile_source (option_map (λ s. s.now) tiles.entry)) }
{
    if let Some(address) = tiles {
        policy.push(b' ')?;
        policy.extend_from_slice(origin_of(address.as_bytes()))?;
    }
    Ok(())
}

/// The policy for tiles from this address, or for none.
fn policy_for(alloc: Global, tiles: Option<&str>) -> Result<Vec<u8>, AllocError>
    ensures { IfOk result (λ policy. policy.items ≡ policy_for (option_map (λ s. s.now) tiles.entry)) }
{
    let mut policy = Vec::new(alloc);
    policy.extend_from_slice(FRONT.as_bytes())?;
    add_source(&mut policy, tiles)?;
    policy.extend_from_slice(BACK.as_bytes())?;
    Ok(policy)
}

/// The policy for a configuration's document.
fn policy_given(alloc: Global, configuration: &Tree) -> Result<Vec<u8>, AllocError>
    ensures { IfOk result (λ policy. policy.items ≡ policy_given (page_of (view configuration.now))) }
{
    match page_of(configuration) {
        Some(settings) => policy_for(alloc, settings.tiles),
        None => policy_for(alloc, None),
    }
}

/// The content policy (Content Security Policy Level 3) of the page with this configuration.
///
/// # Errors
///
/// Out of memory.
pub fn content_policy(alloc: Global, configuration: &[u8]) -> Result<Vec<u8>, AllocError>
    ensures { IfOk result (λ policy. policy.items ≡ policy_of configuration.now) }
{
    match read_tree(alloc, configuration) {
        Ok(tree) => policy_given(alloc, &tree),
        Err(TextFault::NoMemory) => Err(AllocError),
        Err(_) => policy_for(alloc, None),
    }
}
