//! Laws of a life: which rows the host has and what files hold from its opening on, that hooks change neither, that
//! files stay in order, that unlike interfaces have unlike names, and that each begins with its own lease or none.

ghost use Rattle.turn_model.specs.HooksApart.{HooksChangeNothing, WaitsByHooks};
ghost use Rattle.turn_model.specs.FilesInLife.{LeavesFilesInOrder, OpeningKeepsFiles, TurnsKeepFiles, UnlikeAreNamedApart};
ghost use Rattle.turn_model.specs.HostInLife.{OpeningHoldsWanted, TurnsHoldWanted, OthersStay};
ghost use Rattle.turn_model.specs.OwnLeases.{AllBeginWithOwn};

/// Law of a life over devices that tell what they hold and which of their calls fail, from any host and over any store:
/// after the opening, and after every turn, in which no host call failed, whatever failed before, the host has exactly
/// the rows that the client then wants on managed interfaces; and the rows of others are as at the beginning, whatever
/// fails. Each share of a delegated prefix is to be of a managed interface.
pub fn a_life_holds_the_wanted_rows()
    ensures opening { OpeningHoldsWanted }
    ensures turns { TurnsHoldWanted }
    ensures others_stay { OthersStay }
{}

/// Law of the files that such a life keeps, over any store whose files stand in order, where no two interfaces have one
/// name: after the opening and after every turn, whatever fails, what is known of a file is so; and where no call that
/// was to change files failed in it, whatever failed before, each file is the text of the DUID, of the lease that its
/// interface keeps, or of what the resolver is told. There is none where no lease is kept, or the resolver is told
/// nothing. A file that the opening could not read is left alone until a lease is kept in it; that of the resolver
/// isn't.
pub fn a_life_keeps_its_files()
    ensures opening { OpeningKeepsFiles }
    ensures turns { TurnsKeepFiles }
{}

/// Law: a store whose files stand in order is so left by each life, whatever fails in it.
pub fn a_life_leaves_files_in_order()
    ensures { LeavesFilesInOrder }
{}

/// Law: interfaces that are unlike, as those of a script are, have unlike names.
pub fn unlike_interfaces_are_named_apart()
    ensures { UnlikeAreNamedApart }
{}

/// Law: hooks change nothing but their own calls: in every life what their polls answer, and which of their starts
/// fail, leaves the frames, the host, the files and what the client is. Between two lives that are the same but for
/// their hooks the next wait is asked another moment only where a child runs or a job waits.
pub fn hooks_change_nothing()
    ensures lives { HooksChangeNothing }
    ensures waits { WaitsByHooks }
{}

/// Law: whatever the files hold, each interface begins with a lease of its own name and, where the lease tells it, of
/// its own hardware address, or with none.
pub fn interfaces_begin_with_their_own_leases()
    ensures { AllBeginWithOwn }
{}
