//! The first view of the page's map.
ghost use Rattle.std.specs.Prelude.{◌≡◌, ◌≤◌, option_map, map};
ghost use Rattle.mds_geometry.specs.Coordinate.{most_longitude};
ghost use Rattle.mds_text.specs.Tree.{members_of};
ghost use Rattle.mds_text.specs.View.{member_view, view};
ghost use Rattle.server_settings.specs.Settings.{degrees_in, view_in, view_of, zoom_in};

use crate::settings::{find_member, members_in};
use mds_geometry::{MOST_LATITUDE, MOST_LONGITUDE, coordinate_of};
use mds_text::{Field, Member, Tree, Units7};

/// The greatest zoom.
const MOST_ZOOM: i64 = 22;

/// The middle of a map and its zoom.
#[derive(Clone, Copy)]
pub(crate) struct FirstView {
    pub(crate) lat: Units7,
    pub(crate) lng: Units7,
    pub(crate) zoom: u8,
}

/// Degrees, at most `most` from zero.
fn degrees_in(value: Option<&Tree>, most: u8) -> Option<Units7>
    requires { most ≤ most_longitude }
    ensures { result ≡ degrees_in most (option_map (λ t. view t.now) value.entry) }
{
    match value {
        Some(value) => coordinate_of(value, Field::Coordinates, most).ok(),
        None => None,
    }
}

/// A zoom.
fn zoom_in(value: Option<&Tree>) -> Option<u8>
    ensures { result ≡ zoom_in (option_map (λ t. view t.now) value.entry) }
{
    match value {
        Some(Tree::Int(zoom)) if 0 <= *zoom && *zoom <= MOST_ZOOM => Some(*zoom as u8),
        _ => None,
    }
}

/// The view that these members give.
fn view_of(members: &[Member]) -> Option<FirstView>
    ensures { result ≡ view_of (members_of (map member_view members.now)) }
{
    let lat = degrees_in(find_member(members, "lat"), MOST_LATITUDE)?;
    let lng = degrees_in(find_member(members, "lng"), MOST_LONGITUDE)?;
    let zoom = zoom_in(find_member(members, "zoom"))?;
    Some(FirstView { lat, lng, zoom })
}

/// The view that a value gives.
pub(crate) fn view_in(value: Option<&Tree>) -> Option<FirstView>
    ensures { result ≡ view_in (option_map (λ t. view t.now) value.entry) }
{
    view_of(members_in(value?)?)
}
