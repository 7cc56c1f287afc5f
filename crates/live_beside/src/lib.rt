// What an update keeps beside the image: definitions alone.
#![tactic(auto)]
