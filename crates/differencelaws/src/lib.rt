// The report over two maps tells each key with its class exactly where the sentence holds, ascending, each once. Laws alone.
#![tactic(auto)]
