//! The data sets of a unit's volume that a filter takes.

ghost use Rattle.std.specs.Prelude.{◌≡◌, ◌≢◌, All, AllPairs, IfOk, slice_get, Some};
ghost use Rattle.by_rules.specs.Day.{IsToday};
ghost use Rattle.volume_model.specs.Unit.{OnlineVolume, online};
ghost use Rattle.vtoc_core.specs.declared.volume.Row.{Row as RowOf};
ghost use Rattle.vtoc_core.specs.declared.volume.Volume.{Volume as VolumeOf};
ghost use Rattle.job_copies.specs.unit_steps.Plans.{IsLoadedAt, HasRow};
ghost use Rattle.job_copies.specs.job_select.Selection.{ArePicked, Selects};
ghost use Rattle.job_acts.specs.job_steps.Units.{ForUnits};

use by_rules::Day;
use ckd_image::NoMemory;
use dasd_pool::Pool;
use dsn_filter::Dsn;
use job_acts::job_steps::unit_session::Session;
use job_copies::job_select::select;
use std::alloc::Global;
use sysin_lang::Filter;

/// The names that a filter takes of a unit's volume.
pub fn taken<P: Pool>(
    alloc: Global,
    session: &Session<P>,
    unit: u32,
    filter: &Filter,
    today: Day,
) -> Result<Vec<Dsn>, NoMemory>
    requires online { (volume : VolumeOf) × IsLoadedAt session.now.units unit volume }
    requires today { IsToday today }
    ensures taken { IfOk result (λ names. ForUnits P.Pool session.now (λ units. (volume : OnlineVolume) → slice_get units unit ≡ Some (online volume) → Selects filter.now today volume.sets names.items)) }
    ensures there { IfOk result (λ names. (volume : VolumeOf) → IsLoadedAt session.now.units unit volume → All (λ name. (row : RowOf) × HasRow volume name row) names.items) }
    ensures picked { IfOk result (λ names. (volume : VolumeOf) → IsLoadedAt session.now.units unit volume → ArePicked volume volume.rows names.items) }
    ensures apart { IfOk result (λ names. AllPairs (λ name other. name ≢ other) names.items) }
{
    session.stands();
    select(alloc, session.volume(unit), filter, today)
}
