// The answers of the entry points as hosts see them: each becomes its status and the values of its case, and 0 for what
// the case has not.
ghost use Rattle.std.specs.Prelude.{◌≡◌};
ghost use Rattle.zorkamai.specs.Answers.{
  of_solve,
  of_align,
  of_prediction,
  of_fit,
  of_predict,
  of_run,
  of_found,
  of_time,
  of_step,
};

use crate::{Answer, CellAnswer, RecordAnswer, RunReport, TimeAnswer};
use matrix::Col;
use models::PredictOutcome;
use records::Alignment;
use regression::{FitOutcome, Unfitted};
use run::Ran;
use status::Refusal;

// An answer with a status alone.
fn only(status: u8) -> Answer
    ensures { result ≡ Rattle.zorkamai.specs.Answers.only status }
{
    Answer {
        status,
        ridge: 0.0,
        r2: 0.0,
        n: 0,
        inexact: 0,
    }
}

// The solver's.
impl From<Result<Option<f64>, Refusal>> for Answer {
    ghost from_gives = { λ a r. r ≡ of_solve a };

    fn from(a: Result<Option<f64>, Refusal>) -> Answer {
        match a {
            Ok(Some(ridge)) => Answer {
                status: status::ACCEPTED,
                ridge,
                r2: 0.0,
                n: 0,
                inexact: 0,
            },
            Ok(None) => only(status::NOT_SOLVED),
            Err(refusal) => only(refusal.number()),
        }
    }
}

// The alignment's. A function, since neither of the two types is of this crate.
pub(crate) fn status_of(a: Result<(), Refusal>) -> u8
    ensures { result ≡ of_align a }
{
    match a {
        Ok(()) => status::ACCEPTED,
        Err(refusal) => refusal.number(),
    }
}

// Of a prediction whose call was accepted.
impl From<PredictOutcome> for Answer {
    ghost from_gives = { λ p r. r ≡ of_prediction p };

    fn from(p: PredictOutcome) -> Answer {
        match p.fit {
            Ok(fit) => Answer {
                status: status::ACCEPTED,
                ridge: fit.ridge,
                r2: fit.r2,
                n: fit.n,
                inexact: p.inexact,
            },
            Err(Unfitted::NoTrainingRows) => only(status::NO_TRAINING),
            Err(Unfitted::NotSolved) => only(status::NOT_SOLVED),
        }
    }
}

// A fit's: it predicts no row.
impl From<Result<FitOutcome, Refusal>> for Answer {
    ghost from_gives = { λ a r. r ≡ of_fit a };

    fn from(a: Result<FitOutcome, Refusal>) -> Answer {
        match a {
            Ok(fit) => Answer::from(PredictOutcome { fit, inexact: 0 }),
            Err(refusal) => only(refusal.number()),
        }
    }
}

// A prediction's.
impl From<Result<PredictOutcome, Refusal>> for Answer {
    ghost from_gives = { λ a r. r ≡ of_predict a };

    fn from(a: Result<PredictOutcome, Refusal>) -> Answer {
        match a {
            Ok(p) => Answer::from(p),
            Err(refusal) => only(refusal.number()),
        }
    }
}

// A run's.
impl From<Result<Ran, Refusal>> for RunReport {
    ghost from_gives = { λ a r. r ≡ of_run a };

    fn from(a: Result<Ran, Refusal>) -> RunReport {
        match a {
            Ok(ran) => RunReport {
                status: status::ACCEPTED,
                retention: Answer::from(ran.retention),
                mobility: Answer::from(ran.mobility),
            },
            Err(refusal) => {
                let status = refusal.number();
                RunReport {
                    status,
                    retention: only(status),
                    mobility: only(status),
                }
            }
        }
    }
}

// A lookup's.
impl From<Result<Alignment, Refusal>> for RecordAnswer {
    ghost from_gives = { λ a r. r ≡ of_found a };

    fn from(a: Result<Alignment, Refusal>) -> RecordAnswer {
        match a {
            Ok(a) => RecordAnswer {
                status: status::ACCEPTED,
                max_rt: a.max_rt,
                slope: a.slope,
                intercept: a.intercept,
                used: a.used,
                max_rt_exact: a.max_rt_exact,
                slope_exact: a.slope_exact,
                intercept_exact: a.intercept_exact,
            },
            Err(refusal) => RecordAnswer {
                status: refusal.number(),
                max_rt: 0.0,
                slope: 0.0,
                intercept: 0.0,
                used: 0,
                max_rt_exact: false,
                slope_exact: false,
                intercept_exact: false,
            },
        }
    }
}

// An aligned time's.
impl From<Result<f32, Refusal>> for TimeAnswer {
    ghost from_gives = { λ a r. r ≡ of_time a };

    fn from(a: Result<f32, Refusal>) -> TimeAnswer {
        match a {
            Ok(aligned) => TimeAnswer {
                status: status::ACCEPTED,
                aligned,
            },
            Err(refusal) => TimeAnswer {
                status: refusal.number(),
                aligned: 0.0,
            },
        }
    }
}

// A column walker's.
impl From<Option<(f64, Col)>> for CellAnswer {
    ghost from_gives = { λ a r. r ≡ of_step a };

    fn from(a: Option<(f64, Col)>) -> CellAnswer {
        match a {
            Some((value, below)) => CellAnswer {
                found: true,
                value,
                row: below.row,
            },
            None => CellAnswer {
                found: false,
                value: 0.0,
                row: 0,
            },
        }
    }
}
