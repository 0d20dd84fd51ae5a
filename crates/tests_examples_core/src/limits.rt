//! The limits as numbers, by the crate of each: a change of a constant, or of a definition where no constant can be
//! named, is refused here too.
#![tactic(auto)]

ghost use Rattle.std.specs.Prelude.{◌≡◌};
ghost use Rattle.mds_catalog.specs.declared.catalogue.TheConstants.{MOST_POLICIES, MOST_GEOGRAPHIES, MOST_PUBLICATIONS};
ghost use Rattle.mds_drafts.specs.declared.drafts.TheConstants.{MOST_DRAFTS};
ghost use Rattle.mds_geography.specs.Reading.{most_positions};
ghost use Rattle.mds_geometry.specs.Coordinate.{units_of_degree, most_longitude, most_latitude};
ghost use Rattle.mds_match.specs.declared.vehicle.TheConstants.{MOST_VEHICLES};
ghost use Rattle.mds_policy.specs.Reading.{most_rules};
ghost use Rattle.mds_request.specs.declared.call.TheConstants.{MOST_BODY};
ghost use Rattle.mds_request.specs.declared.config.TheConstants.{MOST_OPERATORS, MOST_TOKEN};
ghost use Rattle.mds_text.specs.Fields.{most_bound};
ghost use Rattle.mds_text.specs.Numbers.{most_bytes, most_exponent_digits, most_units};
ghost use Rattle.mds_verdict.specs.declared.verdict.TheConstants.{MOST_DEVICES};

/// A coordinate's text has at most 64 bytes and three digits of exponent, it is within 180 degrees in units of 10^-7
/// degree, and a rule's bound is at most 1,000,000,000. (`texts::depth` tries how deep a text is read.)
pub fn limits_of_texts()
    ensures coordinate { most_bytes ≡ 64 }
    ensures exponent { most_exponent_digits ≡ 3 }
    ensures units { most_units ≡ 1800000000 }
    ensures bound { most_bound ≡ 1000000000 }
{}

/// A position is at most 180 degrees east or west and 90 degrees north or south.
pub fn limits_of_positions()
    ensures degree { units_of_degree ≡ 10000000 }
    ensures longitude { most_longitude ≡ 180 }
    ensures latitude { most_latitude ≡ 90 }
{}

/// A geography has at most 20,000 positions, and a policy 64 rules.
pub fn limits_of_documents()
    ensures positions { most_positions ≡ 20000 }
    ensures rules { most_rules ≡ 64 }
{}

/// At most 512 policies and 512 geographies are published, by at most 1,024 publications.
pub fn limits_of_catalogues()
    ensures policies { MOST_POLICIES ≡ 512 }
    ensures geographies { MOST_GEOGRAPHIES ≡ 512 }
    ensures publications { MOST_PUBLICATIONS ≡ 1024 }
{}

/// At most 256 policies and as many geographies are drafts.
pub fn limits_of_drafts()
    ensures drafts { MOST_DRAFTS ≡ 256 }
{}

/// There are at most 64 operators, access tokens have at most 64 bytes and bodies at most a mebibyte.
pub fn limits_of_requests()
    ensures operators { MOST_OPERATORS ≡ 64 }
    ensures token { MOST_TOKEN ≡ 64 }
    ensures body { MOST_BODY ≡ 1048576 }
{}

/// An operator has at most 200,000 vehicles, of which a report lists the first 100.
pub fn limits_of_fleets()
    ensures vehicles { MOST_VEHICLES ≡ 200000 }
    ensures devices { MOST_DEVICES ≡ 100 }
{}
