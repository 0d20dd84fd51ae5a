//! About whom, and about which moment, a question about the past asks.
ghost use Rattle.std.specs.Prelude.{◌≡◌, IfOk, length};
ghost use Rattle.mds_request.specs.Configuration.{configuration};
ghost use Rattle.server_app.specs.OperatorNames.{badges_view};
ghost use Rattle.server_routes.specs.declared.state.FleetQuestion.TheVariants.{Of};
ghost use Rattle.server_past.specs.Past.{IsSubjectWithin, moment_for, subject_and_moment, subject_of};

use mds_request::{Code, Config};
use mds_text::{Id, Moment};
use server_app::OperatorNames;
use server_durable::{covers, place_of};
use server_routes::{FleetQuestion, FleetView, PastQuestion};

/// About whom a question about the past asks.
#[derive(Clone, Copy)]
pub(crate) enum PastSubject {
    /// A view of the fleet of the operator at this place of the configuration.
    One(usize, FleetView),
    /// Each operator's compliance.
    Each,
}

/// A view of the fleet of the operator with this identifier, as far as oversight goes.
///
/// # Errors
///
/// `Role` where it doesn't go so far, `NotFound`.
fn subject_with(
    config: &Config,
    names: &OperatorNames,
    view: FleetView,
    id: Id,
) -> Result<PastSubject, Code>
    ensures subject { result ≡ subject_of (configuration config.now) (badges_view names.now) (Of view id) }
    ensures within { IfOk result (IsSubjectWithin (length (configuration config.now).operators)) }
{
    if !covers(names.oversight(), view) {
        return Err(Code::Role);
    }
    match place_of(config, id) {
        Some(place) => Ok(PastSubject::One(place, view)),
        None => Err(Code::NotFound),
    }
}

/// About whom a question about fleets asks.
///
/// # Errors
///
/// `Role` where oversight doesn't go so far, `NotFound` where no operator has the identifier, `Token` where there is no
/// operator at the place of the one that asks.
fn subject_of(
    config: &Config,
    names: &OperatorNames,
    question: FleetQuestion,
) -> Result<PastSubject, Code>
    ensures subject { result ≡ subject_of (configuration config.now) (badges_view names.now) question }
    ensures within { IfOk result (IsSubjectWithin (length (configuration config.now).operators)) }
{
    match question {
        FleetQuestion::Own(place, view) if place < config.operators().len() => {
            Ok(PastSubject::One(place, view))
        }
        FleetQuestion::Own(..) => Err(Code::Token),
        FleetQuestion::Of(view, id) => subject_with(config, names, view, id),
        FleetQuestion::EachCompliance if covers(names.oversight(), FleetView::Compliance) => {
            Ok(PastSubject::Each)
        }
        FleetQuestion::EachCompliance => Err(Code::Role),
    }
}

/// The moment that is asked for, in milliseconds since the Unix epoch.
///
/// # Errors
///
/// `BadNumber` where none is, `Future` where it is after the moment of the request.
fn moment_for(at: Option<Moment>, now: Moment) -> Result<Moment, Code>
    ensures { result ≡ moment_for at now }
{
    match at {
        None => Err(Code::BadNumber),
        Some(at) if at > now => Err(Code::Future),
        Some(at) => Ok(at),
    }
}

/// About whom, and about which moment, a question asks at the moment of its request.
///
/// # Errors
///
/// The first refusal: `Role`, `NotFound`, `BadNumber`, `Future`.
pub(crate) fn subject_and_moment(
    config: &Config,
    names: &OperatorNames,
    question: PastQuestion,
    now: Moment,
) -> Result<(PastSubject, Moment), Code>
    ensures asked { result ≡ subject_and_moment (configuration config.now) (badges_view names.now) question now }
    ensures within { IfOk result (λ it. IsSubjectWithin (length (configuration config.now).operators) it.0) }
{
    let subject = subject_of(config, names, question.fleet)?;
    let at = moment_for(question.at, now)?;
    Ok((subject, at))
}
