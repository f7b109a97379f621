//! What a written catalogue comes to.

ghost use Rattle.std.specs.Prelude.{ℕ, List};
ghost use Rattle.workflow_core.specs.declared.workflow.Workflow.{Workflow};
ghost use Rattle.replica_catalog.specs.declared.catalog.Replica.{Replica};
ghost use Rattle.plan_core.specs.declared.plan.Plan.{Plan};
ghost use Rattle.run_record.specs.Events.{Event};
ghost use Rattle.site_yard.specs.declared.delivered.Delivered.{Delivered};
ghost use Rattle.replica_writer.specs.Writer.{catalogue_line, catalogue_text};
ghost use Rattle.replica_writer.specs.Law.{FlaggedAreHeld, KeepsNothing, ReadsBack, ReadsEnough, RegisterRequested, RunsCanBeWritten, SaysEnough};

use lease_rules::records_read;
use plan_core::numbers_are_in_range;

/// The bytes of a catalogue, with a line feed behind them or without, are read as exactly the delivered files that
/// have their flag, each with its one pfn and its digest, in order.
pub fn catalogues_read_back()
    ensures text { (p : Plan) (ds : List Delivered) → ReadsBack catalogue_text p ds }
    ensures line { (p : Plan) (ds : List Delivered) → ReadsBack catalogue_line p ds }
{}

/// Where every requested file is registered, planning without force keeps no job.
pub fn nothing_is_kept()
    ensures { (w : Workflow) (es : List Replica) → RegisterRequested w es → KeepsNothing w es }
{}

/// With a written catalogue, planning without force keeps no job where every requested file was delivered and has
/// its flag.
pub fn written_files_keep_nothing()
    ensures says { (w : Workflow) (p : Plan) (ds : List Delivered) → SaysEnough w p ds }
    ensures text { (w : Workflow) (p : Plan) (ds : List Delivered) → ReadsEnough catalogue_text w p ds }
    ensures line { (w : Workflow) (p : Plan) (ds : List Delivered) → ReadsEnough catalogue_line w p ds }
    ensures held { (w : Workflow) (p : Plan) (ds : List Delivered) → FlaggedAreHeld w p ds }
{}

/// The deliveries of a Legal record are in range, none stands twice, and they are the files that it delivers.
pub fn deliveries_can_be_written()
    ensures { (p : Plan) (order : List ℕ) (r : List Event) (ds : List Delivered)
        → RunsCanBeWritten p order r ds }
{
    numbers_are_in_range();
    records_read();
}
