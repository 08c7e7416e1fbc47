// The laws of peaks (02, T-06). There is no code here.
