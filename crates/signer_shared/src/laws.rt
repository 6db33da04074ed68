//! A law of the clause of `serve_jobs`, over the definitions alone: the function's contract is the law.
ghost use Rattle.signer_shared.specs.JobReceipts.{ReceiptsAreOfTheJobs};

use crate::gate::Gate;
use sequential_signer::SigningCredential;

/// What serving jobs adds to a pass is receipts of these jobs alone, job after job. A job's first receipt is
/// its begin, with its head and duration. After `Begun` or `Pending` it is polled; after `Ask` the answer of
/// that provider is handed over, and after `Sign` the service's for that credential and the job's head, at
/// moments of the gate's clock. It is cancelled in place of any of these where an allocation failed, and in
/// place of the provider's answer where the provider is ready at no turn. Any other reply is its last.
pub fn receipts_are_of_the_jobs<K: SigningCredential, G: Gate<K>>()
    ensures { (gate : G) → ReceiptsAreOfTheJobs (G.meaning gate) }
{}
