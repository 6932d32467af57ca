//! Laws of the definitions.
ghost use Rattle.std.specs.Prelude.{List, IfSome};
ghost use Rattle.quorum_set.specs.declared.bridge.Side.TheVariants.{First, Second};
ghost use Rattle.run_outcome.specs.declared.record.RunRecord.{RunRecord};
ghost use Rattle.replay.specs.Records.{IsSoundRecord, entries_on};
ghost use Rattle.members.specs.Clusters.{ClusterState};
ghost use Rattle.members.specs.Members.{MemberState};
ghost use Rattle.members.specs.Records.{IsRecordOf};

/// States that the record of a closed cluster is sound for each plan of the cluster, with the draws
/// of that plan. So `check_record` accepts it for each, unless it runs out of memory.
pub fn records_of_runs_are_sound()
    ensures first { (c : ClusterState) (members : List MemberState) (r : RunRecord) → IsRecordOf c members r →
        IsSoundRecord c.office.cycle (entries_on First r) }
    ensures second { (c : ClusterState) (members : List MemberState) (r : RunRecord) → IsRecordOf c members r →
        IfSome c.second (λ o. IsSoundRecord o.cycle (entries_on Second r)) }
{}
