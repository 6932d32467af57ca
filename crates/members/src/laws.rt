//! Laws of the definitions.
ghost use Rattle.std.specs.Prelude.{◌≡◌, ◌*◌, ◌≤◌, ℕ, List, IfSome, length};
ghost use Rattle.std.specs.List.{All, sum_by};
ghost use Rattle.run_outcome.specs.declared.record.RunRecord.{RunRecord};
ghost use Rattle.certificate.specs.Certificates.{IsCertificate};
ghost use Rattle.board.specs.Quorums.{HasQuorum};
ghost use Rattle.quorum_set.specs.declared.bridge.Side.TheVariants.{First, Second};
ghost use Rattle.clerks.specs.Clerks.{receipts_of};
ghost use Rattle.members.specs.Clusters.{ClusterState, IsCluster};
ghost use Rattle.members.specs.Members.{MemberState};
ghost use Rattle.members.specs.Records.{IsRecordOf};
ghost use Rattle.members.specs.ClientLaws.{AreClientLaws};

use dealer::tickets_name_quorums;
use requester::{phases_show_votes, requesters_meet_the_contract, requesters_stay_sound};

/// States how many entries a record has. For each plan, the number of its draws is that of its
/// members' receipts. The register is the number of their passes. If each member passed n times,
/// the register is n times the number of members.
pub fn records_count_passes()
    ensures draws { (c : ClusterState) (members : List MemberState) (r : RunRecord) → IsRecordOf c members r →
        length r.draws.items ≡ sum_by (λ m. length (receipts_of m.clerks First)) members }
    ensures draws2 { (c : ClusterState) (members : List MemberState) (r : RunRecord) → IsRecordOf c members r →
        length r.draws2.items ≡ sum_by (λ m. length (receipts_of m.clerks Second)) members }
    ensures passes { (c : ClusterState) (members : List MemberState) (r : RunRecord) → IsRecordOf c members r →
        r.register ≡ sum_by (λ m. length m.seat.passes) members }
    ensures evenly { (c : ClusterState) (members : List MemberState) (r : RunRecord) (n : ℕ) → IsRecordOf c members r →
        All (λ m. length m.seat.passes ≡ n) members → r.register ≡ length members * n }
{}

/// States that the record of a cluster names clients below 64, and quorums that the plan of its draws
/// has, below 4096.
pub fn records_are_in_range()
    ensures draws { (c : ClusterState) (members : List MemberState) (r : RunRecord) → IsCluster c →
        IsCertificate c.office.cycle → IsRecordOf c members r →
        All (λ d. (d.0 ≤ 63) × (d.2 ≤ 4095)) r.draws.items }
    ensures draws2 { (c : ClusterState) (members : List MemberState) (r : RunRecord) → IsCluster c →
        IfSome c.second (λ o. IsCertificate o.cycle) → IsRecordOf c members r →
        All (λ d. (d.0 ≤ 63) × (d.2 ≤ 4095)) r.draws2.items }
    ensures quorums { (c : ClusterState) (members : List MemberState) (r : RunRecord) → IsCluster c →
        IsCertificate c.office.cycle → IsRecordOf c members r →
        All (λ d. HasQuorum c.board.firsts c.board.quorums First d.2) r.draws.items }
    ensures quorums2 { (c : ClusterState) (members : List MemberState) (r : RunRecord) → IsCluster c →
        IfSome c.second (λ o. IsCertificate o.cycle) → IsRecordOf c members r →
        All (λ d. HasQuorum c.board.firsts c.board.quorums Second d.2) r.draws2.items }
    ensures passes { (c : ClusterState) (members : List MemberState) (r : RunRecord) → IsCluster c →
        IsRecordOf c members r → All (λ p. p.0 ≤ 63) r.passes.items }
{
    tickets_name_quorums();
}

/// What the steps of a client keep, and which votes its phases hold.
pub(crate) fn clients_keep_their_laws()
    ensures { AreClientLaws }
{
    requesters_stay_sound();
    requesters_meet_the_contract();
    phases_show_votes();
}
