ghost use Rattle.robot_host.specs.Laws.{NewMayTurn, LongerMayTurn, OthersMayTurn, RefusedMayTurn};

/// The law of a new host: a turn may be taken over any history.
pub fn new_hosts_may_turn()
    ensures { NewMayTurn }
{}

/// The law of longer histories: a host that may take a turn over a history may take one over each history that begins with it.
pub fn longer_histories_may_follow()
    ensures { LongerMayTurn }
{}

/// The law of other wavelets: after a turn over one wavelet's history, a host may take a turn over another wavelet's as it might before.
pub fn turns_leave_other_wavelets()
    ensures { OthersMayTurn }
{}

/// The law of refusals: after a robot was dropped, a host may take a turn over a history as it might before.
pub fn refused_robots_leave_the_others()
    ensures { RefusedMayTurn }
{}
