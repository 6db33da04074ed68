//! Laws of a granter's transcripts, over the definitions alone: each function's contract is the law, for
//! every type of credentials and of rules, every setup and every transcript.
ghost use Rattle.sequential_signer.specs.LawsOfGrants.{SourceWasProvided, GrantedIsNotCached};
ghost use Rattle.sequential_signer.specs.LawsOfGrants.{RefusedSourceIsNotCached, LastStoreStays};
ghost use Rattle.sequential_signer.specs.LawsOfGrants.{SourcesStandApart, GranterIsHandedTheSource};
ghost use Rattle.sequential_signer.specs.LawsOfGrants.{NobodyWaitsForAnother, OneLegalGrantTranscript};
ghost use Rattle.sequential_signer.specs.LawsOfGrants.{ExpectedGrantRepliesAreLegal};

/// What a cache holds was found by a provider for one of its calls, and handed to the granter.
pub fn source_was_provided<K, D>()
    ensures { SourceWasProvided K D }
{}

/// What the granter makes is never cached: its answer leaves every cache.
pub fn granted_is_not_cached<K, D>()
    ensures { GrantedIsNotCached K D }
{}

/// A source that is refused is not cached.
pub fn refused_source_is_not_cached<K, D>()
    ensures { RefusedSourceIsNotCached K D }
{}

/// A source that is found and handed to the granter is what its call's cache holds, whatever it held before.
pub fn last_store_stays<K, D>()
    ensures { LastStoreStays K D }
{}

/// An entry of one cache leaves the source of every other.
pub fn sources_stand_apart<K, D>()
    ensures { SourcesStandApart K D }
{}

/// What the granter is handed is what its call's cache holds from then on.
pub fn granter_is_handed_the_source<K, D>()
    ensures { GranterIsHandedTheSource K D }
{}

/// A poll waits exactly where the call's own load, or the granter's credential for it, is awaited.
pub fn nobody_waits_for_another<K, D>()
    ensures { NobodyWaitsForAnother K D }
{}

/// For a setup, events, and a choice of those that run out of memory there is at most one legal
/// transcript.
pub fn one_legal_grant_transcript<K, D>()
    ensures { OneLegalGrantTranscript K D }
{}

/// The events one after another, each with the expected reply, are a legal transcript of these
/// events, without allocation failures.
pub fn expected_grant_replies_are_legal<K, D>()
    ensures { ExpectedGrantRepliesAreLegal K D }
{}
