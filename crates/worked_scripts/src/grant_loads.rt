//! A granter's loads: chains, and loads of one cache beside each other.

ghost use Rattle.worked_scripts.specs.GrantLoads.{OneProviderDecidesForTheGranter, ChainIsAskedForTheSource};
ghost use Rattle.worked_scripts.specs.GrantLoads.{LastStoreStays, OtherLoadsLeaveTheStored};
ghost use Rattle.worked_scripts.specs.GrantLoads.{OpenLoadDoesNotLookAgain, SourcesStandApart};

/// The miss or the failure of a single provider refuses the call.
pub fn one_provider_decides_for_the_granter()
    ensures { OneProviderDecidesForTheGranter }
{}

/// A chain is asked until a provider finds a source.
pub fn chain_is_asked_for_the_source()
    ensures { ChainIsAskedForTheSource }
{}

/// Two calls of one cache load beside each other, and the source that is found last stays.
pub fn last_store_stays()
    ensures { LastStoreStays }
{}

/// A load that ends in a refusal or a cancel leaves what another load stored.
pub fn other_loads_leave_the_stored()
    ensures { OtherLoadsLeaveTheStored }
{}

/// A call that loads does not look again, whatever another call stored meanwhile.
pub fn open_load_does_not_look_again()
    ensures { OpenLoadDoesNotLookAgain }
{}

/// A source of one cache is none of another.
pub fn sources_stand_apart()
    ensures { SourcesStandApart }
{}
