// One member and one local record are enough for a report; there is no code here.
#![tactic(auto)]
