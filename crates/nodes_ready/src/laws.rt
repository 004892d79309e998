// Laws of worlds that are whole and ready: these functions do nothing, and their contracts are the laws.
ghost use Rattle.nodes_ready.specs.Staying.{DeedsAddNoCall, DeedsKeepReady, NodesKeepWhole, SeatsKeepWhole, SendingKeepsWhole};

/// A whole world stays whole where messages alone change, where each seat is kept and names are found as before, and
/// where only ends change.
pub fn kept_worlds_stay_whole()
    ensures messages { SendingKeepsWhole }
    ensures seats { SeatsKeepWhole }
    ensures nodes { NodesKeepWhole }
{}

/// What clients call in the messages of a world is nothing that a node tells its families itself, and that stays so by
/// whatever a line of a script does that calls nothing like it.
pub fn deeds_keep_clients()
    ensures { DeedsAddNoCall }
{}

/// A world that was ready is so behind a line of a script that leaves it whole.
pub fn deeds_keep_worlds_ready()
    ensures { DeedsKeepReady }
{}
