//! Laws of claims: each is the contract of a call that does nothing.
ghost use Rattle.std.specs.Prelude.{◌≡◌, ◌↔◌, ℕ, List, Some};
ghost use Rattle.sequential_signer.specs.declared.event.Reply.{Reply};
ghost use Rattle.signctl_format.specs.declared.credential.ScriptCredential.{ScriptCredential};
ghost use Rattle.signctl_format.specs.Lines.{reply_line};
ghost use Rattle.signctl_audit.specs.declared.claimed_reply.ClaimedReply.{ClaimedReply};
ghost use Rattle.signctl_audit.specs.ClaimedLines.{shown, claimed_line, SpellsReply};
ghost use Rattle.signctl_audit.specs.ClaimReading.{claim_of};
ghost use Rattle.signctl_audit.specs.LegalLogs.{AcceptedClaimsAreLegal, LegalLogsAreRuns};

/// A text reads as a claim exactly where it spells it.
#[tactic(auto, using(crate::proofs::ClaimGrammar::decided))]
pub fn claims_are_decided()
    ensures { (text : List ℕ) (claimed : ClaimedReply)
        → SpellsReply text claimed ↔ (claim_of text ≡ Some claimed) }
{}

/// A text spells at most one claim.
#[tactic(auto, using(crate::proofs::ClaimGrammar::one_claim))]
pub fn a_text_spells_one_claim()
    ensures { (text : List ℕ) (a b : ClaimedReply) → SpellsReply text a → SpellsReply text b → a ≡ b }
{}

/// A claim has at most one spelling.
#[tactic(auto, using(crate::proofs::ClaimGrammar::one_spelling))]
pub fn a_claim_has_one_spelling()
    ensures { (claimed : ClaimedReply) (a b : List ℕ) → SpellsReply a claimed
        → SpellsReply b claimed → a ≡ b }
{}

/// What `script` prints of a reply is the line of the claim that the reply shows.
#[tactic(auto, using(crate::proofs::ClaimGrammar::printed))]
pub fn a_printed_reply_is_claimed_by_its_line()
    ensures { (reply : Reply ScriptCredential) → reply_line reply ≡ claimed_line (shown reply) }
{}

/// Whatever the input of `audit`, the claims before its first bad line are what is printed of a legal
/// transcript of its events.
pub fn accepted_claims_are_legal()
    ensures { AcceptedClaimsAreLegal }
{}

/// An input of `audit` that is answered by `legal` is the whole log of a run: its claims are all that is
/// printed of a legal transcript of all its events.
pub fn legal_logs_are_runs()
    ensures { LegalLogsAreRuns }
{}
