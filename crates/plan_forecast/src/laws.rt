//! Laws.

ghost use Rattle.std.specs.Prelude.{◌≡◌, ℕ, List, Ok};
ghost use Rattle.plan_meaning.specs.declared.forecast.Forecast.{Forecast};
ghost use Rattle.plan_meaning.specs.declared.plan.Plan.{Plan};
ghost use Rattle.plan_forecast.specs.ForecastOf.{forecast_of};
ghost use Rattle.plan_forecast.specs.Sound.{IsSmallForecast};

/// States a law: the forecast that a text says has steps of some minutes, and numbers from 0 to 64.
pub fn forecasts_are_small()
    ensures { (p : Plan) (text : List ℕ) (f : Forecast) → forecast_of p text ≡ Ok f → IsSmallForecast f }
{}
